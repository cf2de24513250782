//! A router's database.

ghost use Rattle.std.specs.Prelude.{◌≡◌, ◌↔◌, None, IfOk, IsTrue, length, map};
ghost use Rattle.lsdb.specs.{Conflicts.least_conflict, Orders.without_place};
ghost use Rattle.flood.specs.steps.Numbers.{database_in, IsStored};
ghost use Rattle.flood.specs.Runs.{AreNewestOfTheSame, last_number, numbered};

use crate::same::hold_the_same;
use crate::store::Store;
use lsdb::Lsdb;
use mrt_graph::NoMemory;
use ospf_lsa::Lsa;
use std::alloc::Global;
use std::marker::Model;

/// A database of LSAs that packets and other databases hold too. It keeps of each key the first newest instance, as
/// [`Lsdb`] does, and copies none.
#[derive(Drop)]
pub struct SharedLsdb<'a> {
    lsas: &'a [Lsa],
    store: &'a Store,
}

impl<'a> Model for SharedLsdb<'a> {
    ghost use Rattle.lsdb.specs.Entries.{Database};
    ghost use Rattle.flood.specs.steps.Numbers.{database_in, IsStored};

    ghost Value = { Database };

    ghost view = { λ d. database_in d.lsas.now d.store.now };

    ghost invariant = { λ d. IsStored d.lsas.now d.store.now };
}

impl<'a> SharedLsdb<'a> {
    /// The database that is kept so over the LSAs of a file.
    pub(crate) fn new(lsas: &'a [Lsa], store: &'a Store) -> SharedLsdb<'a>
        requires { IsStored lsas.now store.now }
        ensures { result ≡ database_in lsas.now store.now }
    {
        SharedLsdb { lsas, store }
    }

    /// Whether the newest instances of each key differ in nothing but their places and ages.
    ///
    /// It takes time in proportion to the entries.
    pub fn is_settled(&self) -> bool
        ensures { IsTrue result ↔ (least_conflict self.now.entries ≡ None) }
    {
        self.store.is_settled()
    }

    /// Whether another database holds the same LSAs in the same order, but for their places.
    ///
    /// It takes time in proportion to their bytes at most, and no memory.
    pub fn holds_the_same(&self, other: &SharedLsdb) -> bool
        ensures same { IsTrue result ↔ (map (λ entry. without_place entry.lsa) self.now.entries
            ≡ map (λ entry. without_place entry.lsa) other.now.entries) }
        ensures of_the_same { IsTrue result → AreNewestOfTheSame (map (λ entry. entry.lsa) self.now.entries)
            (map (λ entry. entry.lsa) other.now.entries) }
    {
        hold_the_same(self.lsas, self.store, other.lsas, other.store)
    }

    /// A settled database of copies of the first newest instances of a settled one, each with its number in their order
    /// as its place.
    ///
    /// It takes time and memory in proportion to their bytes.
    ///
    /// # Errors
    ///
    /// [`NoMemory`] where there was none for the copies.
    pub fn copied(&self, alloc: Global) -> Result<Lsdb, NoMemory>
        requires { least_conflict self.now.entries ≡ None }
        ensures settled { IfOk result (λ copy. least_conflict copy.entries ≡ None) }
        ensures newest { IfOk result (λ copy. map (λ entry. without_place entry.lsa) copy.entries
            ≡ map (λ entry. without_place entry.lsa) self.now.entries) }
        ensures places { IfOk result (λ copy. map (λ entry. entry.lsa) copy.entries
            ≡ numbered 0 (map (λ entry. entry.lsa) self.now.entries)) }
        ensures greatest { IfOk result (λ copy. copy.greatest ≡ last_number (length self.now.entries)) }
        ensures of_the_same { IfOk result (λ copy. AreNewestOfTheSame (map (λ entry. entry.lsa) self.now.entries)
            (map (λ entry. entry.lsa) copy.entries)) }
    {
        let copy = self.store.copied(alloc, self.lsas)?;
        Ok(copy)
    }
}
