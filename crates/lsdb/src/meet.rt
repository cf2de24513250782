//! An instance meets the one of its key that is there.

ghost use Rattle.std.specs.Prelude.{◌≡◌, ◌+◌, ◌<◌, ◌≤◌, ℕ, IfOk, OnErr, OnOk, Option, None, Some, if◌then◌else◌, drop, length, map, slice_get, slice_set};
ghost use Rattle.std.specs.{List.AllByRecursion, Option.is_some};
ghost use Rattle.ospf_lsa.specs.declared.lsa.Lsa.{Lsa};
ghost use Rattle.lsdb.specs.{Entries.Entry, Keys.key_of, Newest.same_but_age};
ghost use Rattle.lsdb.specs.Installing.{change_of, changed, installed, IsKept};
ghost use Rattle.lsdb.specs.steps.Store.{entries_of, front, IsStore};

use crate::change::Change;
use crate::compare::{compare_ranks, same};
use crate::file_key::FileKey;
use crate::key::Key;
use indexmap::IndexSet;
use mrt_graph::NoMemory;
use ospf_lsa::Lsa;
use std::cmp::Ordering;

/// What an instance is to the one of its key that is there (RFC 2328, section 13.1).
pub fn change_of(there: &Lsa, lsa: &Lsa) -> Change
    ensures { result ≡ change_of there.now lsa.now }
{
    match compare_ranks(lsa, there) {
        Ordering::Less => Change::Older,
        Ordering::Greater => Change::Replaced,
        Ordering::Equal => alike(there, lsa),
    }
}

fn alike(there: &Lsa, lsa: &Lsa) -> Change
    ensures { result ≡ (if same_but_age there.now lsa.now then Change.Same else Change.Clash) }
{
    if same(there, lsa) {
        Change::Same
    } else {
        Change::Clash
    }
}

/// Installs the LSA at this place of a list, and tells what it changed. The LSAs of the database stand at the front of the
/// list, and those between them and this place are no longer wanted. After a refusal nothing has changed.
pub fn install_at(
    keys: &mut IndexSet<Key, FileKey>,
    lsas: &mut Vec<Lsa>,
    differing: &mut Vec<Option<u32>>,
    place: usize,
) -> Result<Change, NoMemory>
    requires behind { length differing.old.items ≤ place }
    requires inside { place < length lsas.old.items }
    requires store { IsStore keys.old.keys (front lsas.old.items differing.old.items) differing.old.items }
    requires kept { (lsa : Lsa) → slice_get lsas.old.items place ≡ Some lsa → IsKept lsa }
    ensures change { IfOk result (λ change. (lsa : Lsa) → slice_get lsas.old.items place ≡ Some lsa
        → change ≡ (installed (entries_of (front lsas.old.items differing.old.items) differing.old.items) lsa).1) }
    ensures entries { OnOk result ((lsa : Lsa) → slice_get lsas.old.items place ≡ Some lsa
        → entries_of (front lsas.new.items differing.new.items) differing.new.items
        ≡ (installed (entries_of (front lsas.old.items differing.old.items) differing.old.items) lsa).0) }
    ensures store { OnOk result
        (IsStore keys.new.keys (front lsas.new.items differing.new.items) differing.new.items) }
    ensures behind { OnOk result (length differing.new.items ≤ place + 1) }
    ensures count { OnOk result (length lsas.new.items ≡ length lsas.old.items) }
    ensures rest { OnOk result (drop (place + 1) lsas.new.items ≡ drop (place + 1) lsas.old.items) }
    ensures err_keys { OnErr result (keys.new.keys ≡ keys.old.keys) }
    ensures err_lsas { OnErr result (lsas.new.items ≡ lsas.old.items) }
    ensures err_differing { OnErr result (differing.new.items ≡ differing.old.items) }
{
    differing.reserve(1)?;
    let (number, is_new) = keys.insert_full(Key::of(&lsas[place]))?;
    if is_new {
        lsas.swap(differing.len(), place);
        differing.push_reserved(None);
        return Ok(Change::Added);
    }
    let change = change_of(&lsas[number], &lsas[place]);
    turn(lsas, differing, number, place, change);
    Ok(change)
}

/// Changes the entry of this number at the front of the list, whose key the instance at this place has.
fn turn(
    lsas: &mut Vec<Lsa>,
    differing: &mut Vec<Option<u32>>,
    number: usize,
    place: usize,
    change: Change,
)
    requires front { number < length differing.old.items }
    requires behind { length differing.old.items ≤ place }
    requires inside { place < length lsas.old.items }
    ensures entries { (lsa : Lsa) (entry : Entry)
        → slice_get lsas.old.items place ≡ Some lsa
        → slice_get (entries_of (front lsas.old.items differing.old.items) differing.old.items) number
        ≡ Some entry
        → entries_of (front lsas.new.items differing.new.items) differing.new.items
        ≡ slice_set (entries_of (front lsas.old.items differing.old.items) differing.old.items) number
        (changed entry lsa change) }
    ensures keys { (lsa : Lsa) → slice_get lsas.old.items place ≡ Some lsa
        → slice_get (map key_of (front lsas.old.items differing.old.items)) number ≡ Some (key_of lsa)
        → map key_of (front lsas.new.items differing.new.items)
        ≡ map key_of (front lsas.old.items differing.old.items) }
    ensures kept { (lsa : Lsa) → slice_get lsas.old.items place ≡ Some lsa → IsKept lsa
        → AllByRecursion IsKept (front lsas.old.items differing.old.items)
        → AllByRecursion IsKept (front lsas.new.items differing.new.items) }
    ensures noted { length differing.new.items ≡ length differing.old.items }
    ensures count { length lsas.new.items ≡ length lsas.old.items }
    ensures rest { drop (place + 1) lsas.new.items ≡ drop (place + 1) lsas.old.items }
{
    match change {
        Change::Replaced => {
            lsas.swap(number, place);
            differing[number] = None;
        }
        Change::Clash => note(differing, number, lsas[place].at),
        Change::Added | Change::Older | Change::Same => {}
    }
}

/// Notes the place of a differing instance, where none was noted.
fn note(differing: &mut Vec<Option<u32>>, place: usize, at: u32)
    requires { place < length differing.old.items }
    ensures count { length differing.new.items ≡ length differing.old.items }
    ensures places { (noted : Option ℕ) → slice_get differing.old.items place ≡ Some noted
        → differing.new.items ≡ slice_set differing.old.items place (if is_some noted then noted else Some at) }
{
    if differing[place].is_none() {
        differing[place] = Some(at);
    }
}
