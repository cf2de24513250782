//! The two sides of a block.

ghost use Rattle.std.specs.Prelude.{◌≡◌, ◌<◌, length};
ghost use Rattle.proxy_rows.specs.Sides.{goes_on, router_of};
ghost use Rattle.proxy_rows.specs.steps.LabelledGraph.{without_rows};

use crate::attachment::Attachment;
use crate::labelled_graph::{LabelledGraph, node_at};
use mrt_graph::NodeNo;

/// The two sides of the block of two routers: Low ascends to the one with the lower order, High descends to the other one.
#[derive(Clone, Copy)]
pub enum Side {
    Low,
    High,
}

/// The router of a side.
pub fn router_of(at: &Attachment, side: Side) -> NodeNo
    ensures { result ≡ router_of at.now side }
{
    match side {
        Side::Low => at.lower,
        Side::High => at.upper,
    }
}

/// Whether one goes on from `s` to `v`, on a side.
pub fn goes_on(words: &LabelledGraph, side: Side, s: NodeNo, v: NodeNo) -> bool
    requires from { s < length words.now.nodes.now }
    requires to { v < length words.now.nodes.now }
    ensures { result ≡ goes_on (without_rows words.now) side s v }
{
    let from = node_at(words.nodes, s).order;
    let to = node_at(words.nodes, v).order;
    match side {
        Side::Low => from < to,
        Side::High => to < from,
    }
}
