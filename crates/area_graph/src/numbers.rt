//! Numbers of an area's nodes, arcs and bonds, from 0, each a type of its own so that none stands in another's place.
//! Contracts see them as plain numbers.

use std::marker::Model;

/// The number of a node of an area, from 0.
#[derive(Clone, Copy, PartialEq, Eq)]
pub struct Spot(u16);

impl Model for Spot {
    ghost use Rattle.std.specs.Prelude.{ℕ};

    ghost Value = { ℕ };

    ghost view = { λ spot. spot.0 };

    ghost inverse = { λ number. record { 0 = number } };
}

impl Spot {
    ghost use Rattle.std.specs.Prelude.{◌≡◌, ◌<◌, ◌^◌};

    pub fn new(number: u16) -> Spot
        ensures { result ≡ number }
    {
        Spot(number)
    }

    pub fn get(&self) -> u16
        ensures value { result ≡ self.now }
        ensures small { self.now < 2 ^ 16 }
    {
        self.0
    }
}

/// The number of an arc of an area, from 0.
#[derive(Clone, Copy, PartialEq, Eq, PartialOrd, Ord)]
pub struct ArcNo(u16);

impl Model for ArcNo {
    ghost use Rattle.std.specs.Prelude.{ℕ};

    ghost Value = { ℕ };

    ghost view = { λ arc. arc.0 };

    ghost inverse = { λ number. record { 0 = number } };
}

impl ArcNo {
    ghost use Rattle.std.specs.Prelude.{◌≡◌, ◌<◌, ◌^◌};

    pub fn new(number: u16) -> ArcNo
        ensures { result ≡ number }
    {
        ArcNo(number)
    }

    pub fn get(&self) -> u16
        ensures value { result ≡ self.now }
        ensures small { self.now < 2 ^ 16 }
    {
        self.0
    }
}

/// The number of a bond of an area, from 0.
#[derive(Clone, Copy, PartialEq, Eq)]
pub struct BondNo(u16);

impl Model for BondNo {
    ghost use Rattle.std.specs.Prelude.{ℕ};

    ghost Value = { ℕ };

    ghost view = { λ bond. bond.0 };

    ghost inverse = { λ number. record { 0 = number } };
}

impl BondNo {
    ghost use Rattle.std.specs.Prelude.{◌≡◌, ◌<◌, ◌^◌};

    pub fn new(number: u16) -> BondNo
        ensures { result ≡ number }
    {
        BondNo(number)
    }

    pub fn get(&self) -> u16
        ensures value { result ≡ self.now }
        ensures small { self.now < 2 ^ 16 }
    {
        self.0
    }
}
