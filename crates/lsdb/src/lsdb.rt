//! The database.

ghost use Rattle.std.specs.Prelude.{◌≡◌, ◌↔◌, [], None, Some, IfOk, OnOk, OnErr, Ok, Err, Contains, map};
ghost use Rattle.std.specs.List.{AllByRecursion};
ghost use Rattle.lsdb.specs.{Conflicts.least_conflict, Conflicts.settled_by, Disagreements.IsFirstConflict, Entries.Entry, Keys.AreDistinct};
ghost use Rattle.lsdb.specs.Installing.{installed, IsKept, IsBehind};
ghost use Rattle.lsdb.specs.steps.Store.{entries_of, front, IsStore};

use crate::change::{Change, Conflict};
use crate::conflicts::least;
use crate::file_key::FileKey;
use crate::key::Key;
use crate::meet::install_at;
use indexmap::IndexSet;
use mrt_graph::NoMemory;
use ospf_lsa::Lsa;
use std::alloc::Global;
use std::marker::Model;

/// A database of LSAs, which keeps of each key the first newest instance.
pub struct Lsdb {
    keys: IndexSet<Key, FileKey>,
    lsas: Vec<Lsa>,
    differing: Vec<Option<u32>>,
    greatest: Option<u32>,
}

impl Drop for Lsdb {
    fn drop(self) {
        let Self {
            keys: _,
            lsas: _,
            differing: _,
            greatest: _,
        } = self;
    }
}

impl Model for Lsdb {
    ghost use Rattle.lsdb.specs.Entries.{Database};
    ghost use Rattle.lsdb.specs.steps.Store.{entries_of, IsStore};

    ghost Value = { Database };

    ghost view = { λ d. record { entries = entries_of d.lsas.items d.differing.items; greatest = d.greatest } };

    ghost invariant = { λ d. IsStore d.keys.keys d.lsas.items d.differing.items };
}

impl Lsdb {
    /// A database without LSAs. Where others chose the LSAs, take [`keyed`](Lsdb::keyed).
    pub fn new(alloc: Global) -> Lsdb
        ensures entries { result.entries ≡ [] }
        ensures greatest { result.greatest ≡ None }
    {
        Lsdb::keyed(alloc, FileKey::of(b""))
    }

    /// A database without LSAs, with its keys hashed by what the file of its LSAs gives.
    pub fn keyed(alloc: Global, file: FileKey) -> Lsdb
        ensures entries { result.entries ≡ [] }
        ensures greatest { result.greatest ≡ None }
    {
        Lsdb {
            keys: IndexSet::with_hasher(alloc, file),
            lsas: Vec::new(alloc),
            differing: Vec::new(alloc),
            greatest: None,
        }
    }

    /// The database with these keys, whose LSAs stand at the front of this list, and this greatest place.
    pub(crate) fn at_front(
        keys: IndexSet<Key, FileKey>,
        lsas: Vec<Lsa>,
        differing: Vec<Option<u32>>,
        greatest: Option<u32>,
    ) -> Lsdb
        requires store { IsStore keys.keys (front lsas.items differing.items) differing.items }
        ensures entries { result.entries ≡ entries_of (front lsas.items differing.items) differing.items }
        ensures greatest { result.greatest ≡ greatest }
    {
        let mut lsas = lsas;
        lsas.truncate(differing.len());
        Lsdb {
            keys,
            lsas,
            differing,
            greatest,
        }
    }

    /// The first newest instance of each key, in the order of the keys' first arrival.
    pub fn newest(&self) -> &[Lsa]
        ensures lsas { result.now ≡ map (λ entry. entry.lsa) self.now.entries }
        ensures kept { AllByRecursion IsKept result.now }
        ensures distinct { AreDistinct result.now }
    {
        self.lsas.as_slice()
    }

    /// Installs an instance, and tells what it changed. After a refusal nothing has changed.
    ///
    /// It takes, over many installs, the time of a look-up by key, and where there is an instance of the same rank,
    /// that of comparing the two bodies.
    pub fn install(&mut self, lsa: Lsa) -> Result<Change, NoMemory>
        requires kept { IsKept lsa }
        requires behind { IsBehind self.old.greatest lsa.at }
        ensures change { IfOk result (λ change. change ≡ (installed self.old.entries lsa).1) }
        ensures entries { OnOk result (self.new.entries ≡ (installed self.old.entries lsa).0) }
        ensures greatest { OnOk result (self.new.greatest ≡ Some lsa.at) }
        ensures err { OnErr result (self.new ≡ self.old) }
    {
        let at = lsa.at;
        let place = self.lsas.len();
        self.lsas.push(lsa)?;
        let met = install_at(&mut self.keys, &mut self.lsas, &mut self.differing, place);
        let count = self.differing.len();
        self.lsas.truncate(count);
        let change = met?;
        self.greatest = Some(at);
        Ok(change)
    }

    /// A refusal where two newest instances of one key differ in more than their places and ages; of several such
    /// conflicts the one with the least second place.
    ///
    /// It takes time in proportion to the entries.
    pub fn settled(&self) -> Result<(), Conflict>
        ensures told { result ≡ settled_by (least_conflict self.now.entries) }
        ensures ok { (result ≡ Ok tt)
            ↔ ((entry : Entry) → Contains self.now.entries entry → entry.differing ≡ None) }
        ensures least { (conflict : Conflict)
            → result ≡ Err conflict → IsFirstConflict self.now.entries conflict }
    {
        match least(&self.lsas, &self.differing) {
            None => Ok(()),
            Some(conflict) => Err(conflict),
        }
    }
}
