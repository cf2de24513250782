//! What the nodes and bonds of an area are in an island.

ghost use Rattle.std.specs.Prelude.{◌≡◌, ◌≢◌, ◌<◌, ◌⊎◌, ℕ, IfOk, IfSome, Some, Contains, length, slice_get};
ghost use Rattle.area_graph.specs.{AreaInvariant.IsArea, Fits.Fits};
ghost use Rattle.mrt_graph.specs.declared.node_id.NodeId.{NodeId};
ghost use Rattle.primary_alt.specs.RoutesMade.{AreAreaNodes, AreBondsOf, AreIslandNodes};

use area_graph::{Arc, Area, BondNo, Spot};
use mrt_graph::{Graph, LinkNo, NoMemory, NodeId, NodeNo};
use std::alloc::Global;

/// Of each island node the node of the area that has its identifier.
pub fn area_nodes(alloc: Global, area: &Area, g: &Graph) -> Result<Vec<Spot>, NoMemory>
    requires { (id : NodeId) → Contains g.now.ids id → Contains area.now.ids id }
    ensures { IfOk result (λ spots. AreAreaNodes area.now.ids g.now.ids spots.items) }
{
    let count = g.node_count();
    let mut spots = Vec::with_capacity(alloc, count as usize)?;
    for n in 0..count {
        spots.push_reserved(spot_of(area, g.id(NodeNo::new(n))));
    }
    Ok(spots)
}

/// The node of this identifier.
fn spot_of(area: &Area, id: NodeId) -> Spot
    requires { Contains area.now.ids id }
    ensures { slice_get area.now.ids result ≡ Some id }
{
    match area.find(id) {
        Some(spot) => spot,
        None => unreachable!(),
    }
}

/// Of each node of the area the island node of its identifier, by the nodes of the area that the island nodes are.
pub fn island_nodes(
    alloc: Global,
    area: &Area,
    g: &Graph,
    spots: &[Spot],
) -> Result<Vec<Option<NodeNo>>, NoMemory>
    requires { AreAreaNodes area.now.ids g.now.ids spots.now }
    ensures { IfOk result (λ nodes. AreIslandNodes area.now.ids g.now.ids nodes.items) }
{
    let mut nodes = vec![in alloc; None; area.count() as usize]?;
    for n in 0..g.node_count() {
        nodes[spots[n as usize].get() as usize] = Some(NodeNo::new(n));
    }
    Ok(nodes)
}

/// Of each link of the graph the bond that it is.
pub fn bonds_of_links(
    alloc: Global,
    area: &Area,
    arcs: &[Arc],
    g: &Graph,
    link_of: &[Option<LinkNo>],
) -> Result<Vec<BondNo>, NoMemory>
    requires kept { IsArea area.now }
    requires arcs { arcs.now ≡ area.now.arcs }
    requires fits { Fits area.now g.now link_of.now }
    ensures { IfOk result (λ bonds. AreBondsOf (length g.now.links) link_of.now bonds.items) }
{
    let mut bonds = vec![in alloc; BondNo::new(0); g.link_count() as usize]?;
    for arc in arcs {
        tell_bond(link_of[arc.bond.get() as usize], arc.bond, &mut bonds);
    }
    Ok(bonds)
}

/// Tells the bond of a link, where there is one.
fn tell_bond(link: Option<LinkNo>, bond: BondNo, bonds: &mut Vec<BondNo>)
    requires { IfSome link (λ e. e < length bonds.old.items) }
    ensures one_each { length bonds.new.items ≡ length bonds.old.items }
    ensures told { (e b : ℕ) → slice_get bonds.new.items e ≡ Some b
        → ((link ≡ Some e) × (b ≡ bond)) ⊎ ((link ≢ Some e) × (slice_get bonds.old.items e ≡ Some b)) }
{
    if let Some(link) = link {
        bonds[link.get() as usize] = bond;
    }
}
