//! The least paths from nodes over their ends, to some nodes side by side.

ghost use Rattle.std.specs.Prelude.{◌≡◌, ◌≢◌, ◌<◌, ◌≤◌, ◌+◌, ◌*◌, ◌↔◌, IsTrue, length, slice_index, true};
ghost use Rattle.mrt_graph.specs.declared.cert.Role.TheVariants.{Sole};
ghost use Rattle.link_direction.specs.Directions.{Directions, Says};
ghost use Rattle.block_spf.specs.BlockAims.{aim_at};
ghost use Rattle.block_spf.specs.steps.PathsOverEnds.{AreLeastOverEnds, left_at};
ghost use Rattle.block_spf.specs.steps.Aiming.{AreRows, HaveOwnPaths};
ghost use Rattle.block_spf.specs.Aiming.{IsAiming};
ghost use Rattle.block_spf.specs.steps.Side.{AreCosts, AreTaken, IsRowPut, cost_from};

use crate::aiming::Aiming;
use crate::offers::{is_sole, leads_on};
use crate::side::{FAR, Leg, NO_LINK, either, take_last, take_onward, take_over};
use mrt_graph::{LinkNo, NodeNo, Role};

/// Takes the least paths from x over its ends in the wanted blocks to the aims side by side, of which each block has its own.
pub fn take_paths(
    aiming: &Aiming,
    x: NodeNo,
    own: bool,
    all: &[u32],
    costs: &mut [u32],
    links: &mut [LinkNo],
)
    requires aiming { IsAiming aiming.now (length costs.old) }
    requires node { x < length aiming.now.graph.now.ids }
    requires one_link_each { length links.old ≡ length costs.old }
    requires rows { AreRows aiming.now (length costs.old) all.now }
    ensures most { AreCosts costs.new }
    ensures least { AreLeastOverEnds aiming.now own (length costs.old) all.now x costs.new links.new }
{
    costs.fill(FAR);
    links.fill(LinkNo::new(NO_LINK));
    let kept = aiming.directed.place(x).block;
    for end in aiming.graph.ends(x) {
        let mark = aiming.directed.mark(end.link);
        let block = mark.block;
        let marked = aiming.wanted[block.get() as usize];
        if takes_link(mark.role, marked, block, kept, own)
            && leads_on(aiming.dir, mark.way, x, end.to)
        {
            let leg = Leg {
                node: x,
                own,
                block,
                end: *end,
            };
            take_leg(aiming, &leg, all, costs, links);
        }
    }
}

/// Whether paths are taken over a link of this role in this block: the link is not sole, the block is marked, and where paths
/// are kept to block `kept`, it is that one.
fn takes_link(role: Role, marked: bool, block: NodeNo, kept: NodeNo, own: bool) -> bool
    ensures { IsTrue result ↔ ((role ≢ Sole) × (marked ≡ true) × (own ≡ true → block ≡ kept)) }
{
    marked && !is_sole(role) && (!own || block == kept)
}

/// Takes the paths over one end. None leads on from the block's head.
fn take_leg(aiming: &Aiming, leg: &Leg, all: &[u32], costs: &mut [u32], links: &mut [LinkNo])
    requires aiming { IsAiming aiming.now (length costs.old) }
    requires node { leg.now.end.to < length aiming.now.graph.now.ids }
    requires block { leg.now.block < length aiming.now.graph.now.ids }
    requires one_link_each { length links.old ≡ length costs.old }
    requires rows { AreRows aiming.now (length costs.old) all.now }
    requires most { AreCosts costs.old }
    ensures { (w : Directions) → Says aiming.now.graph.now aiming.now.directed.now w
        → AreTaken (left_at aiming.now w leg.now.own leg.now.node leg.now.block leg.now.end.to all.now (length costs.old))
        leg.now.end.metric leg.now.end.link costs.old links.old costs.new links.new }
{
    let end = &leg.end;
    let width = costs.len();
    let at = leg.block.get() as usize * width;
    let aims = &aiming.aims[at..at + width];
    let at = end.to.get() as usize * width;
    let left = &all[at..at + width];
    if aiming.directed.place(end.to).block == leg.block {
        if leg.own {
            take_over(left, end.metric, end.link, costs, links);
        } else {
            take_onward(leg, aims, left, costs, links);
        }
    } else {
        take_last(leg.end, aims, costs, links);
    }
}

/// Takes the least costs of each node, in its own block where that is wanted, to the aims of its block, side by side, and the
/// links by which it begins the paths of these costs.
///
/// The turns are those of the other direction, so whatever a node leads to has its turn before it.
pub fn take_own_paths(
    aiming: &Aiming,
    all_costs: &mut [u32],
    all_links: &mut [LinkNo],
    costs: &mut [u32],
    links: &mut [LinkNo],
)
    requires aiming { IsAiming aiming.now (length costs.old) }
    requires one_link_each { length links.old ≡ length costs.old }
    requires rows { AreRows aiming.now (length costs.old) all_costs.old }
    requires all_links { length all_links.old ≡ length all_costs.old }
    ensures rows { AreRows aiming.now (length costs.old) all_costs.new }
    ensures own { HaveOwnPaths aiming.now (length costs.old) all_costs.new all_links.new }
{
    for x in aiming.turns {
        let block = aiming.directed.place(*x).block;
        let marked = aiming.wanted[block.get() as usize];
        if marked {
            take_paths(aiming, *x, true, all_costs, costs, links);
            keep_costs(aiming, *x, block, costs, all_costs);
            keep(*x, links, all_links);
        }
    }
}

/// Keeps the costs of x, whose block is this one, among those of all nodes: nothing where its block aims at x itself.
fn keep_costs(aiming: &Aiming, x: NodeNo, block: NodeNo, costs: &[u32], all: &mut [u32])
    requires aims { block * length costs.now + length costs.now ≤ length aiming.now.aims.now }
    requires room { x * length costs.now + length costs.now ≤ length all.old }
    ensures { IsRowPut x (length costs.now)
        (λ j. cost_from x (aim_at aiming.now.aims.now (length costs.now) j block) (slice_index costs.now j)) all.old all.new }
{
    let width = costs.len();
    let from = block.get() as usize * width;
    let at = x.get() as usize * width;
    for j in 0..width {
        all[at + j] = either(aiming.aims[from + j] == x, 0, costs[j]);
    }
}

/// Keeps the links of x among those of all nodes.
pub fn keep(x: NodeNo, own: &[LinkNo], all: &mut [LinkNo])
    requires { x * length own.now + length own.now ≤ length all.old }
    ensures { IsRowPut x (length own.now) (λ j. slice_index own.now j) all.old all.new }
{
    let at = x.get() as usize * own.len();
    for j in 0..own.len() {
        all[at + j] = own[j];
    }
}
