//! What a router's database has of a key.

ghost use Rattle.std.specs.Prelude.{◌≡◌, ◌<◌, ◌-◌, ◌^◌, ℕ, List, None, length};
ghost use Rattle.ospf_lsa.specs.declared.lsa.Lsa.{Lsa};
ghost use Rattle.lsdb.specs.Installing.{change_of, changed};
ghost use Rattle.flood.specs.steps.Numbers.{entry_in, lsa_in, noted_in};
ghost use Rattle.flood.specs.Receiving.{arrived};

use crate::noted::Noted;
use lsdb::{Change, change_of};
use ospf_lsa::Lsa;

/// The first newest instance of a key, by its number among the LSAs of the file, with its place in this database, and the
/// place of the first newest one that differs from it, if there is one.
#[derive(Drop)]
pub struct DatabaseCopy {
    pub number: u32,
    pub at: u32,
    pub differing: Noted,
}

impl DatabaseCopy {
    /// What is held of a key after the first instance of it, which has this place.
    pub fn new(number: u32, at: u32) -> DatabaseCopy
        ensures { result ≡ record { number = number; at = at; differing = None } }
    {
        DatabaseCopy {
            number,
            at,
            differing: Noted::none(),
        }
    }

    /// Lets an instance of the key with this place meet the one that is there, and tells what it changed.
    ///
    /// It takes the time of comparing the bytes of two where they are of one rank and not the same LSA of the file.
    pub fn meet(&mut self, lsas: &[Lsa], number: u32, at: u32) -> Change
        requires there { self.old.number < length lsas.now }
        requires number { number < length lsas.now }
        requires small { at < 2 ^ 32 - 1 }
        ensures change { result ≡ change_of (entry_in lsas.now self.old).lsa (arrived at (lsa_in lsas.now number)) }
        ensures after { entry_in lsas.now self.new ≡ changed (entry_in lsas.now self.old)
            (arrived at (lsa_in lsas.now number)) result }
        ensures within { self.new.number < length lsas.now }
    {
        let change = change_to(lsas, self.number, number);
        self.turn(number, at, change);
        change
    }

    /// Changes what is held.
    fn turn(&mut self, number: u32, at: u32, change: Change)
        requires { at < 2 ^ 32 - 1 }
        ensures after { (lsas : List Lsa) → entry_in lsas self.new ≡ changed (entry_in lsas self.old)
            (arrived at (lsa_in lsas number)) change }
        ensures within { (count : ℕ) → self.old.number < count → number < count → self.new.number < count }
    {
        match change {
            Change::Replaced => *self = DatabaseCopy::new(number, at),
            Change::Clash => self.note(at),
            Change::Added | Change::Older | Change::Same => {}
        }
    }

    /// Notes the place of a differing instance, where none was noted.
    fn note(&mut self, at: u32)
        requires { at < 2 ^ 32 - 1 }
        ensures { self.new ≡ noted_in self.old at }
    {
        if !self.differing.is_some() {
            self.differing = Noted::of(at);
        }
    }
}

/// What an LSA of the file is to one that is there. It is the same where it is that one, without a look at its bytes.
fn change_to(lsas: &[Lsa], there: u32, number: u32) -> Change
    requires there { there < length lsas.now }
    requires number { number < length lsas.now }
    ensures { result ≡ change_of (lsa_in lsas.now there) (lsa_in lsas.now number) }
{
    if there == number {
        return Change::Same;
    }
    change_of(&lsas[there as usize], &lsas[number as usize])
}
