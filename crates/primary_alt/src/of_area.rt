//! What routes keep of an area.

ghost use Rattle.std.specs.Prelude.{◌≡◌, ◌<◌, IfOk, length, map};
ghost use Rattle.std.specs.List.{range_with_len};
ghost use Rattle.area_graph.specs.AreaInvariant.{IsArea};
ghost use Rattle.primary_alt.specs.Offers.{is_network};

use area_graph::{Arc, Area, Spot};
use mrt_graph::{Kind, NoMemory};
use std::alloc::Global;

/// The arcs of an area, in their order.
pub fn all_arcs(alloc: Global, area: &Area) -> Result<Vec<Arc>, NoMemory>
    ensures kept { IsArea area.now }
    ensures arcs { IfOk result (λ arcs. arcs.items ≡ area.now.arcs) }
{
    let count = area.count();
    let mut arcs = Vec::new(alloc);
    for s in 0..count {
        arcs.extend_from_slice(area.arcs(Spot::new(s)))?;
    }
    Ok(arcs)
}

/// The nodes of an area, in their order.
pub fn all_nodes(alloc: Global, area: &Area) -> Result<Vec<Spot>, NoMemory>
    ensures { IfOk result (λ nodes. nodes.items ≡ range_with_len 0 (length area.now.ids)) }
{
    let nodes = (0..area.count()).map(|s| Spot::new(s)).collect(alloc)?;
    Ok(nodes)
}

/// Of each arc the node that it leads to.
pub fn far_nodes(alloc: Global, arcs: &[Arc]) -> Result<Vec<Spot>, NoMemory>
    ensures { IfOk result (λ nodes. nodes.items ≡ map (λ arc. arc.to) arcs.now) }
{
    let nodes = arcs.iter().map(|arc| arc.to).collect(alloc)?;
    Ok(nodes)
}

/// Of each node whether it is a network.
pub fn networks(alloc: Global, area: &Area) -> Result<Vec<bool>, NoMemory>
    ensures { IfOk result (λ networks. networks.items
        ≡ map (λ s. is_network area.now.ids s) (range_with_len 0 (length area.now.ids))) }
{
    let count = area.count();
    let mut networks = Vec::with_capacity(alloc, count as usize)?;
    for s in 0..count {
        networks.push_reserved(is_network(area, Spot::new(s)));
    }
    Ok(networks)
}

/// Whether a node is a network.
pub fn is_network(area: &Area, spot: Spot) -> bool
    requires { spot < length area.now.ids }
    ensures { result ≡ is_network area.now.ids spot }
{
    match area.id(spot).kind {
        Kind::Router => false,
        Kind::Network => true,
    }
}
