//! Least paths from one node, and to one.

ghost use Rattle.std.specs.Prelude.{◌<◌, IfOk, length};
ghost use Rattle.link_direction.specs.Directions.{Directions, Says};
ghost use Rattle.block_spf.specs.{HasDirections.HasDirections, LeastPath.IsReach, LeastPath.IsReachTo};

use crate::aiming::Aiming;
use crate::fan::Fan;
use crate::paths_over_ends::{take_own_paths, take_paths};
use crate::reach::{Dir, Reach, nodes_by_turn};
use crate::side::{FAR, NO_LINK, hop_by};
use mrt_graph::{Directed, Graph, LinkNo, NoMemory, NodeNo};
use std::alloc::Global;

/// The least paths from a node to every node with which it has a block of more than one link in common, up or down.
///
/// It is a fan of one source. It takes time in proportion to the nodes, and to the ends of those in the source's blocks.
pub fn spf(
    alloc: Global,
    g: &Graph,
    d: &Directed,
    source: NodeNo,
    dir: Dir,
) -> Result<Reach, NoMemory>
    requires source { source < length g.now.ids }
    requires directed { HasDirections g.now d.now }
    ensures { (w : Directions) → Says g.now d.now w → IfOk result (IsReach g.now w dir source) }
{
    let count = g.node_count();
    let turns = nodes_by_turn(alloc, g, d, dir)?;
    let mut fan = Fan::new(alloc, g, 1)?;
    fan.open(g, d, dir, &turns, source);
    let mut hops = vec![in alloc; None; count as usize]?;
    for n in 0..count {
        let t = NodeNo::new(n);
        hops[n as usize] = fan.hop(g, source, source, t);
    }
    Ok(Reach { hops })
}

/// The least paths to a node from every node with which it has a block of more than one link in common, up or down.
///
/// Tests call it; columns are made for many destinations side by side ([`Tile`](crate::Tile)).
///
/// It takes time in proportion to the nodes and the links.
pub fn spf_to(
    alloc: Global,
    g: &Graph,
    d: &Directed,
    target: NodeNo,
    dir: Dir,
) -> Result<Reach, NoMemory>
    requires target { target < length g.now.ids }
    requires directed { HasDirections g.now d.now }
    ensures { (w : Directions) → Says g.now d.now w → IfOk result (IsReachTo g.now w dir target) }
{
    let count = g.node_count();
    let turns = nodes_by_turn(alloc, g, d, dir.against())?;
    let aims = vec![in alloc; target; count as usize]?;
    let wanted = vec![in alloc; true; count as usize]?;
    let aiming = Aiming {
        graph: g,
        directed: d,
        dir,
        turns: turns.as_slice(),
        aims: aims.as_slice(),
        wanted: wanted.as_slice(),
    };
    let mut all = vec![in alloc; FAR; count as usize]?;
    let mut all_links = vec![in alloc; LinkNo::new(NO_LINK); count as usize]?;
    let mut costs = [FAR];
    let mut links = [LinkNo::new(NO_LINK)];
    take_own_paths(&aiming, &mut all, &mut all_links, &mut costs, &mut links);
    let mut hops = vec![in alloc; None; count as usize]?;
    for n in 0..count {
        let s = NodeNo::new(n);
        take_paths(&aiming, s, false, &all, &mut costs, &mut links);
        hops[n as usize] = hop_by(costs[0], links[0]);
    }
    Ok(Reach { hops })
}
