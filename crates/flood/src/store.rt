//! How a router's database is kept.

ghost use Rattle.std.specs.Prelude.{◌≡◌, ◌<◌, ◌-◌, ◌^◌, [], List, IfOk, OnOk, is_none, length};
ghost use Rattle.ospf_lsa.specs.declared.lsa.Lsa.{Lsa};
ghost use Rattle.lsdb.specs.{Conflicts.least_conflict, Installs.all_installed};
ghost use Rattle.lsdb.specs.Installing.{installed, IsBehind, IsKept};
ghost use Rattle.flood.specs.{Databases.after_install, Databases.empty_database, Receiving.arrived, Runs.last_number, Runs.numbered};
ghost use Rattle.flood.specs.steps.SharedStore.{lsas_in};
ghost use Rattle.flood.specs.steps.Numbers.{database_in, entries_by, lsa_in, IsStored};

use crate::database_copy::DatabaseCopy;
use indexmap::IndexSet;
use lsdb::{Change, FileKey, Key, Lsdb};
use mrt_graph::NoMemory;
use ospf_lsa::Lsa;
use std::alloc::Global;

/// A router's database: of each key the first newest instance, by its number among the LSAs of the file.
pub struct Store {
    pub keys: IndexSet<Key, FileKey>,
    pub held: Vec<DatabaseCopy>,
    pub greatest: Option<u32>,
}

impl Drop for Store {
    fn drop(self) {
        let Self {
            keys: _,
            held: _,
            greatest: _,
        } = self;
    }
}

impl Store {
    /// A database without LSAs, with its keys hashed by what the file of its LSAs gives.
    pub fn keyed(alloc: Global, file: FileKey) -> Store
        ensures database { (lsas : List Lsa) → database_in lsas result ≡ empty_database }
        ensures stored { (lsas : List Lsa) → IsStored lsas result }
    {
        Store {
            keys: IndexSet::with_hasher(alloc, file),
            held: Vec::new(alloc),
            greatest: None,
        }
    }

    /// Installs the LSA of this number with this place, and tells what it changed.
    ///
    /// It takes, over many installs, the time of a look-up by key, and where another LSA of the file is there, of the same
    /// rank, that of comparing the two bodies. It copies nothing.
    pub fn install(&mut self, lsas: &[Lsa], number: u32, at: u32) -> Result<Change, NoMemory>
        requires stored { IsStored lsas.now self.old }
        requires number { number < length lsas.now }
        requires kept { IsKept (lsa_in lsas.now number) }
        requires behind { IsBehind self.old.greatest at }
        requires small { at < 2 ^ 32 - 1 }
        ensures change { IfOk result (λ change. change
            ≡ (installed (database_in lsas.now self.old).entries (arrived at (lsa_in lsas.now number))).1) }
        ensures after { OnOk result (database_in lsas.now self.new
            ≡ after_install (database_in lsas.now self.old) (arrived at (lsa_in lsas.now number))) }
        ensures stored { OnOk result (IsStored lsas.now self.new) }
    {
        self.held.reserve(1)?;
        let (place, is_new) = self.keys.insert_full(Key::of(&lsas[number as usize]))?;
        self.greatest = Some(at);
        if is_new {
            self.held.push_reserved(DatabaseCopy::new(number, at));
            return Ok(Change::Added);
        }
        Ok(self.held[place].meet(lsas, number, at))
    }

    /// Whether no place of a differing instance was noted.
    pub fn is_settled(&self) -> bool
        ensures { (lsas : List Lsa) → result ≡ is_none (least_conflict (entries_by lsas self.now.held.items)) }
    {
        for held in &self.held {
            if held.differing.is_some() {
                return false;
            }
        }
        true
    }

    /// A database of copies of the first newest instances, each with its number in their order as its place.
    pub fn copied(&self, alloc: Global, lsas: &[Lsa]) -> Result<Lsdb, NoMemory>
        requires { IsStored lsas.now self.now }
        ensures entries { IfOk result (λ copy. copy.entries
            ≡ all_installed [] (numbered 0 (lsas_in (entries_by lsas.now self.now.held.items)))) }
        ensures greatest { IfOk result (λ copy. copy.greatest ≡ last_number (length self.now.held.items)) }
    {
        let mut copy = Lsdb::keyed(alloc, *self.keys.hasher());
        for place in 0..self.held.len() {
            let lsa = copy_of(alloc, lsas, self.held[place].number, place as u32)?;
            copy.install(lsa)?;
        }
        Ok(copy)
    }
}

/// A copy of the LSA of this number with this place.
fn copy_of(alloc: Global, lsas: &[Lsa], number: u32, at: u32) -> Result<Lsa, NoMemory>
    requires { number < length lsas.now }
    ensures { IfOk result (λ lsa. lsa ≡ arrived at (lsa_in lsas.now number)) }
{
    let mut lsa = lsas[number as usize].copy(alloc)?;
    lsa.at = at;
    Ok(lsa)
}
