//! The database of a list of LSAs.

ghost use Rattle.std.specs.Prelude.{◌≡◌, IfOk};
ghost use Rattle.ospf_lsa.specs.{declared.lsa.Lsa.Lsa, Lsas.AreLsas};
ghost use Rattle.lsdb.specs.{Database.entering, Entries.entries_in};

use crate::file_key::FileKey;
use crate::laws::{an_lsa_without_a_fault_may_be_installed, entries_are_those_of_the_list};
use crate::lsdb::Lsdb;
use crate::meet::install_at;
use indexmap::IndexSet;
use mrt_graph::NoMemory;
use ospf_lsa::Lsa;
use std::alloc::Global;

/// The database of the LSAs that a reader gave of a file: the router-LSAs and network-LSAs among them, installed one after
/// another.
///
/// The list becomes that of the database: the LSAs that are kept move to its front, and no second list stands beside it.
/// It takes the time of [`Lsdb::install`] for each, and that of a digest of their keys: these are hashed by all of them,
/// so that who writes the file cannot make them fall together.
pub fn database_of(alloc: Global, lsas: Vec<Lsa>) -> Result<Lsdb, NoMemory>
    requires { AreLsas 0 lsas.items }
    ensures { IfOk result (λ database. database.entries ≡ entries_in (entering lsas.items)) }
{
    an_lsa_without_a_fault_may_be_installed();
    entries_are_those_of_the_list();
    let mut list = lsas;
    let mut keys = IndexSet::with_hasher(alloc, FileKey::of_lsas(list.as_slice()));
    let mut differing = Vec::new(alloc);
    let mut greatest = None;
    for place in 0..list.len() {
        if !list[place].is_area_lsa() {
            continue;
        }
        greatest = Some(list[place].at);
        install_at(&mut keys, &mut list, &mut differing, place)?;
    }
    Ok(Lsdb::at_front(keys, list, differing, greatest))
}
