//! The blocks of the links.

ghost use Rattle.std.specs.Prelude.{◌≡◌, ◌<◌, ℕ, Some, length};
ghost use Rattle.mrt_graph.specs.Leads.{leads};
ghost use Rattle.gadag_ears.specs.steps.Blocks.{AreBlocksGiven, IsBlockGiven};
ghost use Rattle.gadag_ears.specs.CommonBlock.{IsCommonBlock};

use mrt_graph::{Graph, LinkNo, Mark, NodeNo, Place};

/// Gives each link the common block of its nodes.
pub fn give_blocks(g: &Graph, places: &[Place], marks: &mut Vec<Mark>)
    requires one_place_each { length places.now ≡ length g.now.ids }
    requires one_mark_each { length marks.old.items ≡ length g.now.links }
    requires common { (e u v : ℕ) → leads g.now.links e u ≡ Some v
        → (block : ℕ) × IsCommonBlock places.now u v block }
    ensures { AreBlocksGiven g.now places.now (length g.now.links) marks.old.items marks.new.items }
{
    for e in 0..g.link_count() {
        give_block(g, places, marks, LinkNo::new(e));
    }
}

/// Gives a link the common block of its nodes.
fn give_block(g: &Graph, places: &[Place], marks: &mut Vec<Mark>, e: LinkNo)
    requires link { e < length g.now.links }
    requires one_place_each { length places.now ≡ length g.now.ids }
    requires one_mark_each { length marks.old.items ≡ length g.now.links }
    requires common { (u v : ℕ) → leads g.now.links e u ≡ Some v
        → (block : ℕ) × IsCommonBlock places.now u v block }
    ensures { IsBlockGiven g.now places.now e marks.old.items marks.new.items }
{
    let link = g.link(e);
    let mark = marks[e.get() as usize];
    let block = common_block(places, link.a, link.b);
    marks[e.get() as usize] = Mark {
        way: mark.way,
        role: mark.role,
        block,
    };
}

/// The common block of two nodes that have one.
fn common_block(places: &[Place], u: NodeNo, v: NodeNo) -> NodeNo
    requires u { u < length places.now }
    requires v { v < length places.now }
    requires common { (block : ℕ) × IsCommonBlock places.now u v block }
    ensures { IsCommonBlock places.now u v result }
{
    let at_u = places[u.get() as usize];
    let at_v = places[v.get() as usize];
    if at_v.head == u {
        return at_v.block;
    }
    if at_u.block == at_v.block {
        return at_v.block;
    }
    at_u.block
}
