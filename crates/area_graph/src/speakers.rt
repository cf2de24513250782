//! Which LSA speaks for each node.

ghost use Rattle.std.specs.Prelude.{◌≡◌, not, IfOk, IfErr, map};
ghost use Rattle.std.specs.{List.AllByRecursion, List.AllZip, List.Sorted.IsStrictlySortedBy};
ghost use Rattle.mrt_graph.specs.NodeOrder.{node_id_cmp};
ghost use Rattle.lsdb.specs.{Installing.IsKept, Keys.AreDistinct};
ghost use Rattle.ospf_lsa.specs.MaxAge.{is_at_max_age};
ghost use Rattle.area_graph.specs.Nodes.{node_of, live, speakers as all_speakers};
ghost use Rattle.area_graph.specs.steps.Speaking.{IsSpeakerOf};

use crate::area_error::AreaError;
use crate::speaker::Speaker;
use mrt_graph::NodeId;
use ospf_lsa::{Lsa, ROUTER_LSA};
use std::alloc::Global;

/// The LSAs that speak for the nodes of an area, by ascending node.
pub fn speakers(alloc: Global, lsas: &[Lsa]) -> Result<Vec<Speaker>, AreaError>
    requires kept { AllByRecursion IsKept lsas.now }
    requires distinct { AreDistinct lsas.now }
    ensures speak { IfOk result (λ found. AllZip (IsSpeakerOf lsas.now) found.items (all_speakers lsas.now)) }
    ensures ascend { IfOk result (λ found. IsStrictlySortedBy node_id_cmp (map (λ speaker. speaker.id) found.items)) }
    ensures refused { IfErr result (λ error. error ≡ AreaError.NoMemory) }
{
    let mut found = live_ones(alloc, lsas)?;
    // Of one node the greatest advertising router comes first, and stays.
    found.sort_unstable_by(|one, other| {
        one.id.cmp(&other.id).then(other.router.cmp(&one.router))
    });
    found.dedup_by_key(|speaker| speaker.id);
    Ok(found)
}

/// The identifiers of speakers' nodes.
pub fn ids(alloc: Global, speakers: &[Speaker]) -> Result<Vec<NodeId>, AreaError>
    ensures ids { IfOk result (λ ids. ids.items ≡ map (λ speaker. speaker.id) speakers.now) }
    ensures refused { IfErr result (λ error. error ≡ AreaError.NoMemory) }
{
    Ok(speakers.iter().map(|speaker| speaker.id).collect(alloc)?)
}

/// The LSAs that are not at MaxAge, in their order.
fn live_ones(alloc: Global, lsas: &[Lsa]) -> Result<Vec<Speaker>, AreaError>
    ensures speak { IfOk result (λ found. AllZip (IsSpeakerOf lsas.now) found.items (live lsas.now)) }
    ensures refused { IfErr result (λ error. error ≡ AreaError.NoMemory) }
{
    let mut found = Vec::with_capacity(alloc, lsas.len())?;
    for (at, lsa) in lsas.iter().enumerate() {
        if is_live(lsa) {
            found.push_reserved(Speaker {
                id: node(lsa),
                router: lsa.router,
                at,
            });
        }
    }
    Ok(found)
}

/// Whether an LSA is not withdrawn.
fn is_live(lsa: &Lsa) -> bool
    ensures { result ≡ not (is_at_max_age lsa.now) }
{
    !lsa.is_at_max_age()
}

/// The node that an LSA is of.
fn node(lsa: &Lsa) -> NodeId
    ensures { result ≡ node_of lsa.now }
{
    if lsa.kind == ROUTER_LSA {
        NodeId::router(lsa.id)
    } else {
        NodeId::network(lsa.id)
    }
}
