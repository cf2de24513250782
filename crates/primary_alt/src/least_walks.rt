//! Primaries.

ghost use Rattle.std.specs.Prelude.{◌≡◌, ◌≢◌, ◌<◌, ◌↔◌, IfOk, IsTrue, Some, length};
ghost use Rattle.area_graph.specs.AreaInvariant.{IsArea};
ghost use Rattle.mrt_graph.specs.GraphInvariant.{IsNetwork};
ghost use Rattle.primary_alt.specs.steps.Beginnings.{AreBeginnings, IsBeginning};
ghost use Rattle.primary_alt.specs.DistancesFrom.{AreDistancesFrom};
ghost use Rattle.primary_alt.specs.Primaries.{ArePrimaries, IsPrimary, LeadsOver};

use crate::beginnings::{Beginning, least_beginnings};
use crate::of_area::{all_arcs, is_network};
use crate::searches::Searches;
use crate::shortest::Primary;
use area_graph::{Arc, Area, Spot};
use mrt_graph::NoMemory;
use std::alloc::Global;

/// Where a router sends packets, and how far each node is from it.
#[derive(Drop)]
pub struct FromRouter {
    /// Of each node where the router sends a packet for it: None for the router itself, and where no walk leads.
    pub primaries: Vec<Option<Primary>>,
    /// Of each node its distance: None where no walk leads.
    pub distances: Vec<Option<u32>>,
}

/// Of each node where the source, a router, sends a packet for it: None for the source itself, and where no walk
/// leads.
///
/// It takes the time of [`from_router`](crate::from_router).
pub fn primaries(alloc: Global, area: &Area, source: Spot) -> Result<Vec<Option<Primary>>, NoMemory>
    requires within { source < length area.now.ids }
    requires router { ¬ IsNetwork area.now.ids source }
    ensures { IfOk result (λ entries. ArePrimaries area.now source entries.items) }
{
    let from = from_router(alloc, area, source)?;
    Ok(from.primaries)
}

/// The primaries of the source, a router, and the distances from it.
///
/// One search from the source gives the distances, and one pass over the arcs of shortest paths the first two arcs to all
/// nodes, the least by number. It takes time in proportion to the arcs, times the logarithm of their number.
pub fn from_router(alloc: Global, area: &Area, source: Spot) -> Result<FromRouter, NoMemory>
    requires within { source < length area.now.ids }
    requires router { ¬ IsNetwork area.now.ids source }
    ensures primaries { IfOk result (λ from. ArePrimaries area.now source from.primaries.items) }
    ensures distances { IfOk result (λ from. AreDistancesFrom area.now.arcs source from.distances.items) }
    ensures one_each { IfOk result (λ from. length from.distances.items ≡ length area.now.ids) }
{
    let distances = distances_from(alloc, area, source)?;
    let primaries = primaries_from(alloc, area, source, &distances)?;
    Ok(FromRouter {
        primaries,
        distances,
    })
}

/// The distance of each node from the source.
fn distances_from(alloc: Global, area: &Area, source: Spot) -> Result<Vec<Option<u32>>, NoMemory>
    requires { source < length area.now.ids }
    ensures from { IfOk result (λ known. AreDistancesFrom area.now.arcs source known.items) }
    ensures one_each { IfOk result (λ known. length known.items ≡ length area.now.ids) }
{
    let mut known = vec![in alloc; None; area.count() as usize]?;
    let mut searches = Searches::new(alloc, area)?;
    searches.distances(source, &mut known)?;
    Ok(known)
}

/// The primaries of a router by the distances from it.
fn primaries_from(
    alloc: Global,
    area: &Area,
    source: Spot,
    distances: &[Option<u32>],
) -> Result<Vec<Option<Primary>>, NoMemory>
    requires within { source < length area.now.ids }
    requires router { ¬ IsNetwork area.now.ids source }
    requires from { AreDistancesFrom area.now.arcs source distances.now }
    requires one_each { length distances.now ≡ length area.now.ids }
    ensures { IfOk result (λ entries. ArePrimaries area.now source entries.items) }
{
    let arcs = all_arcs(alloc, area)?;
    let begins = least_beginnings(alloc, &arcs, source, distances)?;
    entries(alloc, area, source, &arcs, &begins)
}

/// The primaries of a router for paths that begin so.
fn entries(
    alloc: Global,
    area: &Area,
    source: Spot,
    arcs: &[Arc],
    begins: &[Option<Beginning>],
) -> Result<Vec<Option<Primary>>, NoMemory>
    requires kept { IsArea area.now }
    requires arcs { arcs.now ≡ area.now.arcs }
    requires begins { length begins.now ≡ length area.now.ids }
    requires are { AreBeginnings area.now source begins.now }
    ensures { IfOk result (λ entries. ArePrimaries area.now source entries.items) }
{
    let mut entries = vec![in alloc; None; begins.len()]?;
    for t in 0..begins.len() {
        entries[t] = entry(area, source, arcs, begins, Spot::new(t as u16));
    }
    Ok(entries)
}

/// The primary for `t`.
fn entry(
    area: &Area,
    source: Spot,
    arcs: &[Arc],
    begins: &[Option<Beginning>],
    t: Spot,
) -> Option<Primary>
    requires arcs { arcs.now ≡ area.now.arcs }
    requires kept { IsArea area.now }
    requires begins { length begins.now ≡ length area.now.ids }
    requires are { AreBeginnings area.now source begins.now }
    requires to { t < length area.now.ids }
    ensures { IsPrimary area.now source t result }
{
    if t == source {
        return None;
    }
    match begins[t.get() as usize] {
        Some(begin) => Some(primary_over(area, source, arcs, t, begin)),
        None => None,
    }
}

/// The primary for `t` by how a shortest path there begins.
fn primary_over(area: &Area, source: Spot, arcs: &[Arc], t: Spot, begin: Beginning) -> Primary
    requires kept { IsArea area.now }
    requires arcs { arcs.now ≡ area.now.arcs }
    requires to { t < length area.now.ids }
    requires apart { t ≢ source }
    requires begin { IsBeginning area.now source t begin }
    ensures { IsPrimary area.now source t (Some result) }
{
    let arc = &arcs[begin.first.get() as usize];
    if !leads_over(area, arc, t) {
        return Primary {
            first: begin.first,
            second: None,
            next: arc.to,
        };
    }
    Primary {
        first: begin.first,
        second: Some(begin.second),
        next: arcs[begin.second.get() as usize].to,
    }
}

/// Whether the arc leads to a network other than `t`.
fn leads_over(area: &Area, arc: &Arc, t: Spot) -> bool
    requires { arc.now.to < length area.now.ids }
    ensures { IsTrue result ↔ LeadsOver area.now t arc.now }
{
    arc.to != t && is_network(area, arc.to)
}
