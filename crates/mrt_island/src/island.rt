//! Islands.

ghost use Rattle.std.specs.Prelude.{◌≡◌, ◌≤◌, ◌↔◌, ℕ, false, IfOk, IfErr, Err, Contains, length};
ghost use Rattle.mrt_graph.specs.{NewGraph.AreGraphParts, NewGraph.IsGraphOf, NodeIds.router as router_node};
ghost use Rattle.area_graph.specs.{AreaInvariant.IsArea, Fits.Fits};
ghost use Rattle.mrt_island.specs.{IslandOf.IsIsland, Members.IsInside, declared.island_error.IslandError.TheVariants.NoMemory as no_memory};
ghost use Rattle.mrt_island.specs.Policy.{policy_of};
ghost use Rattle.mrt_island.specs.steps.Searching.{IsExtent};

use crate::extent::{Extent, extent_of};
use crate::island_error::IslandError;
use crate::numbering::{ids_inside, link_numbers, links_between};
use crate::profile::Profile;
use crate::rooting::root;
use area_graph::{Area, Bond};
use mrt_graph::{Graph, GraphError, Kind, LinkIn, LinkNo, NoMemory, NodeId, NodeNo, Seq};
use std::alloc::Global;

/// The MRT Island of a router (RFC 7811, section 5): the router, every node that eligible pairs of its area join to it, and the
/// eligible pairs between these nodes.
#[derive(Drop)]
pub struct Island {
    /// Its nodes by ascending identifier; its links by lower node, then by higher node, then in the order of the area's bonds.
    pub graph: Graph,
    /// The router with the lowest priority number and, among those, the highest router ID.
    pub root: NodeNo,
    /// Of each bond of the area the number of the link that it is, if it is one.
    pub link_of: Seq<Option<LinkNo>>,
}

/// The island of a router of the area.
///
/// A pair is eligible where no router end of it is marked `ineligible` with its link data, no end of it has metric 65,535 (RFC 6987),
/// and both its nodes support the profile; a network always does.
///
/// It takes time in proportion to the nodes, arcs and bonds of the area, with a look-up or two in the profile for each
/// router and each end of a pair, and the time of `Graph::new`.
///
/// # Example
///
/// All links are point-to-point, with small metrics. The profile has the lines `ineligible 3.3.3.3 10.0.34.3` and `no-mrt 5.5.5.5`.
///
/// ```text
///     1.1.1.1 --------- 2.2.2.2
///          \             /
///           \           /
///             3.3.3.3
///                | 10.0.34.3
///                |
///                | 10.0.34.4
///             4.4.4.4 --------- 5.5.5.5
///
///     bonds of the area        0: 1-2   1: 1-3   2: 2-3   3: 3-4   4: 4-5
///
///     island of 1.1.1.1        nodes 0: 1.1.1.1, 1: 2.2.2.2, 2: 3.3.3.3; links 0: 0-1, 1: 0-2, 2: 1-2; root 2, the
///                              highest router ID among equal priorities
///                              link_of Some(0), Some(1), Some(2), None, None
///     island of 4.4.4.4        node 0: 4.4.4.4; no link; root 0; link_of None five times
///     island of 5.5.5.5        Unsupported
///     island of 9.9.9.9        NotThere
/// ```
///
/// # Errors
///
/// [`IslandError::NotThere`] exactly where the area has no such router, [`IslandError::Unsupported`] exactly where it is there and the
/// profile says `no-mrt` of it. [`IslandError::NoMemory`] comes where there was none for a list. No island is too large for a graph:
/// an area has at most 4,096 nodes and 32,768 arcs, and each link of the island takes two arcs.
pub fn find_island(
    alloc: Global,
    area: &Area,
    profile: &Profile,
    router: u32,
) -> Result<Island, IslandError>
    ensures island { IfOk result (λ island. IsIsland (policy_of profile.now) area.now router island.graph island.root island.link_of) }
    ensures fits { IfOk result (λ island. Fits area.now island.graph island.link_of) }

    ensures not_there { (result ≡ Err IslandError.NotThere) ↔ (Contains area.now.ids (router_node router) → ⊥) }
    ensures unsupported { (result ≡ Err IslandError.Unsupported)
        ↔ (Contains area.now.ids (router_node router) × ((policy_of profile.now).supports router ≡ false)) }
{
    let bonds = area.bonds();
    let own = NodeId {
        kind: Kind::Router,
        number: router,
    };
    let Some(start) = area.find(own) else {
        return Err(IslandError::NotThere);
    };
    if !profile.supports(router) {
        return Err(IslandError::Unsupported);
    }
    let extent = extent_of(alloc, area, profile, start)?;
    island_of(alloc, area, profile, bonds, &extent)
}

/// The island that is made of these nodes and bonds of the area.
fn island_of(
    alloc: Global,
    area: &Area,
    profile: &Profile,
    bonds: &[Bond],
    extent: &Extent,
) -> Result<Island, IslandError>
    requires kept { IsArea area.now }
    requires bonds { bonds.now ≡ area.now.bonds }
    requires extent { IsExtent (policy_of profile.now) area.now extent.now.nodes.items extent.now.links.items }
    ensures island { IfOk result (λ island. (router : ℕ) → IsInside (policy_of profile.now) area.now router extent.now.nodes.items
        → IsIsland (policy_of profile.now) area.now router island.graph island.root island.link_of) }
    ensures fits { IfOk result (λ island. Fits area.now island.graph island.link_of) }
    ensures refused { IfErr result (λ error. error ≡ no_memory) }
{
    let ids = ids_inside(alloc, area, &extent.nodes)?;
    let links = links_between(alloc, &extent.nodes, &extent.links, bonds)?;
    let link_of = link_numbers(alloc, &extent.links)?;
    let root = root(&ids, profile);
    let graph = graph(alloc, ids, links)?;
    Ok(Island {
        graph,
        root,
        link_of: Seq::from_vec(link_of),
    })
}

/// The graph of so few nodes and links that it is not too large.
fn graph(alloc: Global, ids: Vec<NodeId>, links: Vec<LinkIn>) -> Result<Graph, NoMemory>
    requires parts { AreGraphParts ids.items links.items }
    requires nodes { length ids.items ≤ 4096 }
    requires links { length links.items ≤ 16384 }
    ensures { IfOk result (λ graph. IsGraphOf ids.items links.items graph) }
{
    match Graph::new(alloc, ids, links) {
        Ok(graph) => Ok(graph),
        Err(GraphError::NoMemory) => Err(NoMemory),
        Err(GraphError::TooLarge { .. }) => unreachable!(),
    }
}
