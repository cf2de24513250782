//! Least costs to some nodes side by side.

ghost use Rattle.std.specs.Prelude.{◌≡◌, ◌<◌, if◌then◌else◌, length, slice_index};
ghost use Rattle.block_spf.specs.steps.Side.{AreCosts, AreTaken, IsTakenAt, cost_at, left_onward};
ghost use Rattle.block_spf.specs.Side.{hop_by};

use crate::reach::Hop;
use mrt_graph::{End, LinkNo, NodeNo};

/// More than the cost of any path.
pub const FAR: u32 = 2147483648;

/// Stands for no link: no graph has so many.
pub const NO_LINK: u16 = 65535;

/// An end of a node over which paths lead on, and the block of its link; and whether the paths keep to the node's own block.
#[derive(Clone, Copy)]
pub struct Leg {
    pub node: NodeNo,
    pub own: bool,
    pub block: NodeNo,
    pub end: End,
}

/// Takes the paths over an end to the nodes side by side, where they are less: `left` has the costs after the end.
pub fn take_over(left: &[u32], metric: u16, link: LinkNo, costs: &mut [u32], links: &mut [LinkNo])
    requires one_left_each { length left.now ≡ length costs.old }
    requires one_link_each { length links.old ≡ length costs.old }
    requires most { AreCosts left.now }
    ensures { AreTaken (λ j. slice_index left.now j) metric link costs.old links.old costs.new links.new }
{
    for j in 0..costs.len() {
        take_at(j, left[j] + metric as u32, link, costs, links);
    }
}

/// Takes the paths over an end like this, but for those whose aim is the end's own node: the way back is none.
pub fn take_onward(
    leg: &Leg,
    aims: &[NodeNo],
    left: &[u32],
    costs: &mut [u32],
    links: &mut [LinkNo],
)
    requires one_aim_each { length aims.now ≡ length costs.old }
    requires one_left_each { length left.now ≡ length costs.old }
    requires one_link_each { length links.old ≡ length costs.old }
    requires most { AreCosts left.now }
    ensures { AreTaken (λ j. left_onward leg.now.node (slice_index aims.now j) (slice_index left.now j))
        leg.now.end.metric leg.now.end.link costs.old links.old costs.new links.new }
{
    let x = leg.node;
    let end = leg.end;
    for j in 0..costs.len() {
        let onward = either(aims[j] == x, FAR, left[j]);
        take_at(j, onward + end.metric as u32, end.link, costs, links);
    }
}

/// Takes the paths that end with this end, where they are less: nothing is left where it leads to the aim.
pub fn take_last(end: End, aims: &[NodeNo], costs: &mut [u32], links: &mut [LinkNo])
    requires one_aim_each { length aims.now ≡ length costs.old }
    requires one_link_each { length links.old ≡ length costs.old }
    ensures { AreTaken (λ j. cost_at end.to (slice_index aims.now j)) end.metric end.link costs.old links.old costs.new links.new }
{
    for j in 0..costs.len() {
        let last = either(end.to == aims[j], 0, FAR);
        take_at(j, last + end.metric as u32, end.link, costs, links);
    }
}

/// Takes a path by this cost at one place, where it is less.
fn take_at(j: usize, cost: u32, link: LinkNo, costs: &mut [u32], links: &mut [LinkNo])
    requires place { j < length costs.old }
    requires one_link_each { length links.old ≡ length costs.old }
    ensures { IsTakenAt j cost link costs.old links.old costs.new links.new }
{
    let less = cost < costs[j];
    costs[j] = either(less, cost, costs[j]);
    links[j] = either(less, link, links[j]);
}

/// One of two values. (A value rather than a choice to write: so some are written at once.)
pub fn either<T: Copy>(first: bool, one: T, other: T) -> T
    ensures { result ≡ (if first then one else other) }
{
    if first { one } else { other }
}

/// The hop by a least cost and its link: none where the cost is far.
pub fn hop_by(cost: u32, link: LinkNo) -> Option<Hop>
    ensures { result ≡ hop_by cost link }
{
    (cost < FAR).then_some(Hop { cost, link })
}
