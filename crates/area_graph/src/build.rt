//! From a database to its area.

ghost use Rattle.std.specs.Prelude.{◌≡◌, ◌≤◌, ◌⊎◌, None, IfOk, IfErr, length, map};
ghost use Rattle.std.specs.List.{AllByRecursion};
ghost use Rattle.lsdb.specs.Conflicts.{least_conflict};
ghost use Rattle.area_graph.specs.AreaOf.{area_of};
ghost use Rattle.area_graph.specs.steps.NumberedArea.{parts_of};
ghost use Rattle.area_graph.specs.AreaInvariant.{IsArea};
ghost use Rattle.area_graph.specs.steps.Pairing.{AreOrdered, IsBetween};
ghost use Rattle.area_graph.specs.AreaSize.{IsTooLarge, TellsTooLarge};

use crate::arcs::arcs_by_ends;
use crate::area::Area;
use crate::area_error::AreaError;
use crate::entry::{Listing, NumberedEntry};
use crate::listing::listing;
use crate::pairing::pair_arcs;
use crate::starts::starts;
use lsdb::Lsdb;
use mrt_graph::NodeId;
use std::alloc::Global;

/// The area that the newest LSAs of a settled database give (RFC 2328, section 16.1).
///
/// Its nodes are the routers of live router-LSAs, and the networks of live network-LSAs; of several of one network that
/// of the greatest advertising router counts. A link or a listing is an arc exactly where the LSA of its far node
/// answers it: a point-to-point link is answered by one back, a link to a transit network by the network's listing of
/// the router, and that by the link. For two nodes the arcs of each direction are put in order of link data, then of
/// place in the LSA, and the k-th of one makes a pair with the k-th of the other.
///
/// It takes the time of sorting the entries of all LSAs, and the arcs once more, and of a binary search among the nodes for
/// each entry; memory beside the area for a list of the entries, and for a number of each node.
///
/// # Example
///
/// 1.1.1.1 lists two links to 2.2.2.2, which lists one back. 3.3.3.3 lists a link to 1.1.1.1, which lists none back.
/// 1.1.1.1 and 2.2.2.2 are on a LAN, whose designated router is 2.2.2.2.
///
/// ```text
///     1.1.1.1 --- 0.0.0.1, metric 10 ---> 2.2.2.2 --- 0.0.0.1, metric 10 ---> 1.1.1.1
///             --- 0.0.0.2, metric 20 --->
///     1.1.1.1 --- 10.0.0.1, metric 5 ---> LAN 10.0.0.2 lists 2.2.2.2, then 1.1.1.1
///     2.2.2.2 --- 10.0.0.2, metric 5 ---> LAN
///     3.3.3.3 --- 0.0.0.1, metric 10 ---> 1.1.1.1
///
///     nodes    0: 1.1.1.1   1: 2.2.2.2   2: 3.3.3.3   3: net:10.0.0.2
///     arcs     0: 0 -> 3, metric 5, 10.0.0.1, bond 1      4: 1 -> 0, metric 10, 0.0.0.1, bond 0
///              1: 0 -> 1, metric 10, 0.0.0.1, bond 0      5: 3 -> 0, metric 0, bond 1
///              2: 0 -> 1, metric 20, 0.0.0.2, bond 3      6: 3 -> 1, metric 0, bond 2
///              3: 1 -> 3, metric 5, 10.0.0.2, bond 2      none of node 2: nothing answers its link
///     bonds    0: pair 0, 1   1: pair 0, 3   2: pair 1, 3   3: the single arc from 0 to 1
/// ```
///
/// # Errors
///
/// [`AreaError::TooLarge`] exactly where there are more than 4,096 nodes or more than 32,768 arcs, with both counts.
/// [`AreaError::NoMemory`] comes where there was none for a list.
pub fn build_area(alloc: Global, database: &Lsdb) -> Result<Area, AreaError>
    requires { least_conflict database.now.entries ≡ None }
    ensures area { IfOk result (λ area. area ≡ area_of (map (λ entry. entry.lsa) database.now.entries)) }
    ensures within { let area = area_of (map (λ entry. entry.lsa) database.now.entries) in
        IfOk result (λ _. IsTooLarge (length area.ids) (length area.arcs) → ⊥) }
    ensures refused { let area = area_of (map (λ entry. entry.lsa) database.now.entries) in
        IfErr result (λ error. (error ≡ AreaError.NoMemory)
        ⊎ TellsTooLarge (length area.ids) (length area.arcs) error) }
{
    let Listing { ids, entries } = listing(alloc, database.newest())?;
    let by_way = arcs_by_ends(alloc, ids.len(), entries)?;
    area_of_arcs(alloc, ids, &by_way)
}

/// The area of these nodes and arcs, which are in the order in which they are paired.
fn area_of_arcs(
    alloc: Global,
    ids: Vec<NodeId>,
    by_way: &[NumberedEntry],
) -> Result<Area, AreaError>
    requires ordered { AreOrdered by_way.now }
    requires between { AllByRecursion IsBetween by_way.now }
    requires few { length by_way.now ≤ 32768 }
    requires kept { IsArea (parts_of ids.items by_way.now) }
    ensures area { IfOk result (λ area. area ≡ parts_of ids.items by_way.now) }
    ensures refused { IfErr result (λ error. error ≡ AreaError.NoMemory) }
{
    let paired = pair_arcs(alloc, ids.len(), by_way)?;
    let starts = starts(alloc, ids.len(), &paired.arcs)?;
    Ok(Area::of_parts(ids, paired.arcs, starts, paired.bonds))
}
