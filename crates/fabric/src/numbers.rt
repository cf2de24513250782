//! Numbers of packets, from 0. Contracts see them as plain numbers.

use std::marker::Model;

/// The number of a packet, from 0.
#[derive(Clone, Copy)]
pub struct PacketNo(u16);

impl Model for PacketNo {
    ghost use Rattle.std.specs.Prelude.{ℕ};

    ghost Value = { ℕ };

    ghost view = { λ packet. packet.0 };

    ghost inverse = { λ number. record { 0 = number } };
}

impl PacketNo {
    ghost use Rattle.std.specs.Prelude.{◌≡◌, ◌<◌, ◌^◌};

    pub fn new(number: u16) -> PacketNo
        ensures { result ≡ number }
    {
        PacketNo(number)
    }

    pub fn get(&self) -> u16
        ensures value { result ≡ self.now }
        ensures small { self.now < 2 ^ 16 }
    {
        self.0
    }
}
