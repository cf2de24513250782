//! Databases that hold the same LSAs.

ghost use Rattle.std.specs.Prelude.{◌≡◌, ◌↔◌, IsTrue, map};
ghost use Rattle.lsdb.specs.Orders.{without_place};
ghost use Rattle.flood.specs.steps.Numbers.{entries_by, IsStored};
ghost use Rattle.flood.specs.steps.SharedStore.{lsas_in};

use crate::store::Store;
use lsdb::{Change, change_of};
use ospf_lsa::Lsa;

/// Whether two databases, each over LSAs of its own, hold the same ones in the same order, but for their places.
pub fn hold_the_same(lsas: &[Lsa], store: &Store, others: &[Lsa], other: &Store) -> bool
    requires stored { IsStored lsas.now store.now }
    requires other_stored { IsStored others.now other.now }
    ensures { IsTrue result ↔ (map without_place (lsas_in (entries_by lsas.now store.now.held.items))
        ≡ map without_place (lsas_in (entries_by others.now other.now.held.items))) }
{
    if store.held.len() != other.held.len() {
        return false;
    }
    for place in 0..store.held.len() {
        let lsa = &lsas[store.held[place].number as usize];
        if !are_alike(lsa, &others[other.held[place].number as usize]) {
            return false;
        }
    }
    true
}

/// Whether two LSAs differ in nothing but their places.
fn are_alike(one: &Lsa, other: &Lsa) -> bool
    ensures { IsTrue result ↔ (without_place one.now ≡ without_place other.now) }
{
    let change = change_of(one, other);
    one.age == other.age && matches!(change, Change::Same)
}
