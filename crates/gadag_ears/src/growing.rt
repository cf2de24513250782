//! The GADAG on its way.

ghost use Rattle.std.specs.Prelude.{◌≡◌, ◌<◌, ◌≤◌, ◌+◌, ◌↔◌, ℕ, IsTrue, Contains, length, vec_capacity};
ghost use Rattle.gadag_ears.specs.steps.Growing.{HasRoom, HasEntered, IsMarked, IsPlaceOfEar, IsEarTurn, StartsEar};
ghost use Rattle.gadag_ears.specs.declared.kind.EarKind.TheVariants.{Child};

use crate::kind::EarKind;
use crate::marking::mark_ear;
use crate::walk::walk;
use mrt_graph::{Graph, LinkNo, Mark, NodeNo, Place, Tree};

/// The nodes whose turn is over, in their order; the nodes whose turn is to come, the next one last; of each node
/// whether it is in the GADAG, and its place there; of each link its mark; and room for the new nodes of an ear.
#[derive(Drop)]
pub struct Growing {
    pub order: Vec<NodeNo>,
    pub waiting: Vec<NodeNo>,
    pub listed: Vec<bool>,
    pub places: Vec<Place>,
    pub marks: Vec<Mark>,
    pub added: Vec<NodeNo>,
}

/// Brings the ear of this kind that begins over this link with this node, in the turn of x.
pub fn grow(
    g: &Graph,
    tree: &Tree,
    kind: EarKind,
    growing: &mut Growing,
    x: NodeNo,
    link: LinkNo,
    first: NodeNo,
)
    requires starts { StartsEar g.now tree.now kind growing.old x link first }
    requires room { HasRoom (length g.now.ids) growing.old }
    ensures turn { (root : ℕ) → IsEarTurn g.now root tree.now x growing.old → IsEarTurn g.now root tree.now x growing.new }
    ensures room { HasRoom (length g.now.ids) growing.new }
    ensures order { growing.new.order ≡ growing.old.order }
    ensures grows { (v : ℕ) → IsMarked growing.old.listed.items v → IsMarked growing.new.listed.items v }
    ensures entered { IsMarked growing.new.listed.items first }
{
    let stop = walk(g, tree, kind, &growing.listed, &mut growing.added, first);
    let begins = begins_block(kind, x, stop);
    mark_ear(
        g,
        tree,
        kind,
        &mut growing.marks,
        x,
        link,
        &growing.added,
        begins,
    );
    let place = place_of_ear(kind, x, first, stop, &growing.places);
    enter_all(growing, place.head, place.block);
}

/// Whether an ear of x that stops here begins a block.
fn begins_block(kind: EarKind, x: NodeNo, stop: NodeNo) -> bool
    ensures { IsTrue result ↔ ((kind ≡ Child) × (stop ≡ x)) }
{
    match kind {
        EarKind::Child => stop == x,
        EarKind::Neighbour => false,
    }
}

/// The place of an ear's new nodes.
fn place_of_ear(kind: EarKind, x: NodeNo, first: NodeNo, stop: NodeNo, places: &[Place]) -> Place
    requires { stop < length places.now }
    ensures { IsPlaceOfEar kind x first stop places.now result }
{
    match kind {
        EarKind::Child if stop == x => Place {
            head: x,
            block: first,
        },
        _ => places[stop.get() as usize],
    }
}

/// Enters the new nodes, the last one first.
fn enter_all(growing: &mut Growing, head: NodeNo, block: NodeNo)
    requires within { (v : ℕ) → Contains growing.old.added.items v → v < length growing.old.listed.items }
    requires one_place_each { length growing.old.places.items ≡ length growing.old.listed.items }
    requires room { length growing.old.waiting.items + length growing.old.added.items
        ≤ vec_capacity growing.old.waiting }
    ensures { HasEntered growing.old head block growing.old.added.items growing.new }
{
    'entry: for k in (0..growing.added.len()).rev() {
        let node = growing.added[k];
        growing.listed[node.get() as usize] = true;
        growing.places[node.get() as usize] = Place { head, block };
        growing.waiting.push_reserved(node);
    }
}
