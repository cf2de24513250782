//! The destinations, as the source sees them.

ghost use Rattle.std.specs.Prelude.{◌≡◌, ◌<◌, ℕ, IfOk, List, None, Some, length};
ghost use Rattle.area_graph.specs.{declared.area_types.Arc.Arc, AreaInvariant.IsArea};
ghost use Rattle.primary_alt.specs.{ArcWalk.ArcWalk, Distance.IsDistance, DistancesFrom.AreDistancesFrom};
ghost use Rattle.primary_alt.specs.Primaries.{ArePrimaries, IsPrimary};
ghost use Rattle.lfa_alt.specs.steps.Choosing.{AreDestinations, IsDestinationFor};

use crate::destination::Destination;
use area_graph::{Arc, Area, Spot};
use mrt_graph::NoMemory;
use primary_alt::Primary;
use std::alloc::Global;

/// Of each node what is asked of it, by the primaries of the source and the distances from it.
pub fn destinations(
    alloc: Global,
    area: &Area,
    arcs: &[Arc],
    source: Spot,
    primaries: &[Option<Primary>],
    distances: &[Option<u32>],
) -> Result<Vec<Option<Destination>>, NoMemory>
    requires kept { IsArea area.now }
    requires arcs { arcs.now ≡ area.now.arcs }
    requires primaries { ArePrimaries area.now source primaries.now }
    requires distances { AreDistancesFrom area.now.arcs source distances.now }
    requires one_each { length distances.now ≡ length area.now.ids }
    ensures { IfOk result (λ destinations. AreDestinations area.now source destinations.items) }
{
    let mut destinations = Vec::with_capacity(alloc, primaries.len())?;
    for t in 0..primaries.len() {
        destinations.push_reserved(destination(area, arcs, source, t, primaries[t], distances[t]));
    }
    Ok(destinations)
}

/// What is asked of a node.
fn destination(
    area: &Area,
    arcs: &[Arc],
    source: Spot,
    t: usize,
    primary: Option<Primary>,
    distance: Option<u32>,
) -> Option<Destination>
    requires kept { IsArea area.now }
    requires arcs { arcs.now ≡ area.now.arcs }
    requires primary { IsPrimary area.now source t primary }
    requires distance { (d : ℕ) → distance ≡ Some d → IsDistance area.now.arcs source t d }
    requires none { distance ≡ None → (walk : List Arc) → ¬ ArcWalk area.now.arcs source walk t }
    ensures { IsDestinationFor area.now source t result }
{
    let primary = primary?;
    let distance = distance?;
    let arc = &arcs[primary.first.get() as usize];
    Some(Destination {
        primary,
        bond: arc.bond,
        distance,
        beyond: distance - arc.metric as u32,
    })
}
