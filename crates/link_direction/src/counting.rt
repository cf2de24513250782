//! How many counted links enter each node.

ghost use Rattle.std.specs.Prelude.{◌≡◌, ◌<◌, ◌+◌, ◌↔◌, IfOk, IsTrue, Some, length};
ghost use Rattle.mrt_graph.specs.GraphInvariant.{IsTopology};
ghost use Rattle.link_direction.specs.steps.Counting.{AreCounts, entered_by};

use mrt_graph::{End, Graph, LinkNo, Mark, NoMemory, NodeNo, Role, Way};
use std::alloc::Global;

/// How many counted links enter each node.
pub fn entering(alloc: Global, g: &Graph, marks: &[Mark]) -> Result<Vec<u16>, NoMemory>
    requires { length marks.now ≡ length g.now.links }
    ensures counts { IfOk result (λ counts. AreCounts (entered_by g.now marks.now)
        (length g.now.links) (length g.now.ids) counts.items) }
    ensures kept { IsTopology g.now }
{
    let mut counts = vec![in alloc; 0; g.node_count() as usize]?;
    for e in 0..g.link_count() {
        count(g, marks, &mut counts, LinkNo::new(e));
    }
    Ok(counts)
}

/// Counts a link where it enters, if it is counted.
fn count(g: &Graph, marks: &[Mark], counts: &mut Vec<u16>, e: LinkNo)
    requires link { e < length g.now.links }
    requires kept { IsTopology g.now }
    requires marks { length marks.now ≡ length g.now.links }
    requires counts { AreCounts (entered_by g.now marks.now) e (length g.now.ids) counts.old.items }
    ensures { AreCounts (entered_by g.now marks.now) (e + 1) (length g.now.ids) counts.new.items }
{
    if let Some(v) = entered(g, marks, e) {
        counts[v.get() as usize] += 1;
    }
}

/// The node that a link enters as a counted link.
fn entered(g: &Graph, marks: &[Mark], e: LinkNo) -> Option<NodeNo>
    requires link { e < length g.now.links }
    requires marks { length marks.now ≡ length g.now.links }
    ensures { result ≡ entered_by g.now marks.now e }
{
    let mark = marks[e.get() as usize];
    let link = g.link(e);
    if mark.role == Role::Closing {
        return None;
    }
    match mark.way {
        Way::Unset => None,
        Way::AToB => Some(link.b),
        Way::BToA => Some(link.a),
    }
}

/// Whether a counted link leads over this end to the node at its other end.
pub fn counts_over(g: &Graph, marks: &[Mark], end: &End) -> bool
    requires link { end.now.link < length g.now.links }
    requires marks { length marks.now ≡ length g.now.links }
    ensures { IsTrue result ↔ (entered_by g.now marks.now end.now.link ≡ Some end.now.to) }
{
    match entered(g, marks, end.link) {
        Some(v) => v == end.to,
        None => false,
    }
}
