//! Places that may be noted or not.

ghost use Rattle.std.specs.Prelude.{◌≡◌, ◌<◌, ◌-◌, ◌^◌, None, Some};
ghost use Rattle.std.specs.Option.{is_some};

use std::marker::Model;

/// What stands for no place: no LSA has it as its place.
const NONE: u32 = u32::MAX;

/// A place, if one was noted. It takes no more room than a place.
#[derive(Drop)]
pub struct Noted {
    number: u32,
}

impl Model for Noted {
    ghost use Rattle.std.specs.Prelude.{ℕ, Option};
    ghost use Rattle.flood.specs.steps.Noting.{place_in};

    ghost Value = { Option ℕ };

    ghost view = { λ noted. place_in noted.number };
}

impl Noted {
    /// No place.
    pub fn none() -> Noted
        ensures { result ≡ None }
    {
        Noted { number: NONE }
    }

    /// This place.
    pub fn of(at: u32) -> Noted
        requires { at < 2 ^ 32 - 1 }
        ensures { result ≡ Some at }
    {
        Noted { number: at }
    }

    /// Whether a place was noted.
    pub fn is_some(&self) -> bool
        ensures { result ≡ is_some self.now }
    {
        self.number != NONE
    }
}
