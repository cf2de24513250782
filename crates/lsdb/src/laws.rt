//! Laws over whole lists of installs. They hold of the definitions alone; the functions do nothing.

ghost use Rattle.std.specs.Prelude.{◌≡◌, ◌↔◌, ◌⊎◌, List, [], None, Some, true, false, map, IsPermutation};
ghost use Rattle.ospf_lsa.specs.{declared.lsa.Lsa.Lsa, Lsas.IsLsa, Types.network_lsa, Types.router_lsa};
ghost use Rattle.lsdb.specs.Changes.{HasRankOfFirst, IsOfNewKey, IsOutranked, OutranksAll};
ghost use Rattle.lsdb.specs.{Conflicts.least_conflict, Disagreements.IsFirstConflictOf, Entries.entries_in, Installing.installed, Installing.IsKept};
ghost use Rattle.lsdb.specs.{Installs.all_installed, Installs.AreBehind, Newest.newest_of, Newest.IsSettled, declared.change.Conflict.Conflict};
ghost use Rattle.lsdb.specs.Instances.{DifferInMaxAge, HoldTheSameButAge, HoldTheSameInstances};
ghost use Rattle.lsdb.specs.declared.key.Key.{Key};
ghost use Rattle.lsdb.specs.Keys.{key_of, keys_in, AreDistinct};
ghost use Rattle.lsdb.specs.Orders.{newest_in, timeless, AreReordered, HoldTheSame};

use crate::change::Change;

/// After any list of installs into a database without LSAs, its entries are those of the whole list: for each key, in
/// the order of first arrival, the first newest instance and the place of the first newest one that differs from it.
pub fn entries_are_those_of_the_list()
    ensures { (lsas : List Lsa) → all_installed [] lsas ≡ entries_in lsas }
{}

/// There is one first newest instance of each key of the list, in the order of first arrival, and no two are of one
/// key.
pub fn each_key_has_one_first_newest_instance()
    ensures keys { (lsas : List Lsa) → map key_of (newest_in lsas) ≡ keys_in lsas }
    ensures distinct { (lsas : List Lsa) → AreDistinct (newest_in lsas) }
{}

/// Such a database has no conflict exactly where, in the whole list, the newest instances of each key differ in nothing
/// but their places and ages.
pub fn refuses_exactly_where_not_settled()
    ensures none { (lsas : List Lsa) → IsSettled lsas → least_conflict (entries_in lsas) ≡ None }
    ensures settled { (lsas : List Lsa) → least_conflict (entries_in lsas) ≡ None → IsSettled lsas }
{}

/// The conflict of such a database is that of the list: the places of a key's first newest instance and of the first
/// newest one that differs from it in more than place and age, and no other key has such a pair with a lesser second
/// place. Where the places of the LSAs rise there is at most one such conflict.
pub fn tells_the_first_conflict()
    ensures told { (lsas : List Lsa) (conflict : Conflict)
        → least_conflict (entries_in lsas) ≡ Some conflict → IsFirstConflictOf lsas conflict }
    ensures only { (lsas : List Lsa) (conflict : Conflict) → AreBehind None lsas
        → IsFirstConflictOf lsas conflict → least_conflict (entries_in lsas) ≡ Some conflict }
{}

/// What one more install tells, after any list of them, is what the LSA is to those of the list.
pub fn each_change_is_told_of_the_list()
    ensures added { (lsas : List Lsa) (lsa : Lsa)
        → ((installed (all_installed [] lsas) lsa).1 ≡ Change.Added) ↔ IsOfNewKey lsas lsa }
    ensures replaced { (lsas : List Lsa) (lsa : Lsa)
        → ((installed (all_installed [] lsas) lsa).1 ≡ Change.Replaced) ↔ OutranksAll lsas lsa }
    ensures older { (lsas : List Lsa) (lsa : Lsa)
        → ((installed (all_installed [] lsas) lsa).1 ≡ Change.Older) ↔ IsOutranked lsas lsa }
    ensures same { (lsas : List Lsa) (lsa : Lsa)
        → ((installed (all_installed [] lsas) lsa).1 ≡ Change.Same) ↔ HasRankOfFirst lsas lsa true }
    ensures clash { (lsas : List Lsa) (lsa : Lsa)
        → ((installed (all_installed [] lsas) lsa).1 ≡ Change.Clash) ↔ HasRankOfFirst lsas lsa false }
{}

/// Lists that hold the same LSAs but for their places, in whatever order and number, have the same newest instances of
/// each key, ages included, and the same keys, and are settled together. Where they are, the first newest instances of
/// each key differ in nothing but place and age field, and are at MaxAge together: they are the same instances.
pub fn the_same_lsas_give_the_same_database()
    ensures newest { (lsas others : List Lsa) → HoldTheSame lsas others
        → (key : Key) → HoldTheSame (newest_of lsas key) (newest_of others key) }
    ensures keys { (lsas others : List Lsa) → HoldTheSame lsas others
        → IsPermutation (keys_in lsas) (keys_in others) }
    ensures settled { (lsas others : List Lsa) → HoldTheSame lsas others
        → IsSettled lsas ↔ IsSettled others }
    ensures listed { (lsas others : List Lsa) → HoldTheSame lsas others → IsSettled lsas
        → IsPermutation (map timeless (newest_in lsas)) (map timeless (newest_in others)) }
    ensures instances { (lsas others : List Lsa) → HoldTheSame lsas others → IsSettled lsas
        → HoldTheSameInstances (newest_in lsas) (newest_in others) }
{}

/// A list in another order, the places left out, holds the same LSAs, and the newest instances of each key are the same
/// in another order.
pub fn every_order_gives_the_same_newest_instances()
    ensures held { (lsas others : List Lsa) → AreReordered lsas others → HoldTheSame lsas others }
    ensures newest { (lsas others : List Lsa) → AreReordered lsas others
        → (key : Key) → AreReordered (newest_of lsas key) (newest_of others key) }
{}

/// Lists that hold the same LSAs but for their places and ages hold the same instances, or an LSA is at MaxAge in one of them
/// and not in the other.
pub fn instances_differ_in_max_age_alone()
    ensures { (lsas others : List Lsa) → HoldTheSameButAge lsas others
        → HoldTheSameInstances lsas others ⊎ DifferInMaxAge lsas others }
{}

/// An LSA without a fault that is a router-LSA or a network-LSA may be installed, but for its place.
pub fn an_lsa_without_a_fault_may_be_installed()
    ensures { (lsa : Lsa) → IsLsa lsa → (lsa.kind ≡ router_lsa) ⊎ (lsa.kind ≡ network_lsa) → IsKept lsa }
{}
