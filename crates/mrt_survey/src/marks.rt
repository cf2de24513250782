//! Marks on nodes, and how many there are.

ghost use Rattle.std.specs.Prelude.{◌≡◌, ◌<◌, ◌≤◌, IfOk, false, length, map, replicate, slice_set};
ghost use Rattle.std.specs.List.{AllByRecursion, filter};
ghost use Rattle.mrt_graph.specs.Certificate.{IsCertLink, IsCertNode};
ghost use Rattle.mrt_survey.specs.steps.Marking.{IsMarkedToo};

use mrt_graph::{CertLink, CertNode, NoMemory, NodeNo};
use std::alloc::Global;

/// Room for so many marks, none of which is made.
pub fn no_marks(alloc: Global, count: u16) -> Result<Vec<bool>, NoMemory>
    ensures { IfOk result (λ marks. marks.items ≡ replicate count false) }
{
    Ok(vec![in alloc; false; count as usize]?)
}

/// Marks the block of each link.
pub fn mark_blocks(marks: &mut Vec<bool>, links: &[CertLink])
    requires { AllByRecursion (IsCertLink (length marks.old.items)) links.now }
    ensures room { length marks.new.items ≡ length marks.old.items }
    ensures marked { IsMarkedToo (map (λ link. link.block) links.now) marks.old.items marks.new.items }
{
    for link in links {
        marks[link.block.get() as usize] = true;
    }
}

/// Marks the head of each node.
pub fn mark_heads(marks: &mut Vec<bool>, nodes: &[CertNode])
    requires { AllByRecursion (IsCertNode (length marks.old.items)) nodes.now }
    ensures room { length marks.new.items ≡ length marks.old.items }
    ensures marked { IsMarkedToo (map (λ node. node.head) nodes.now) marks.old.items marks.new.items }
{
    for node in nodes {
        marks[node.head.get() as usize] = true;
    }
}

/// Makes a node's mark, or takes it away.
pub fn set_mark(marks: &mut Vec<bool>, node: NodeNo, mark: bool)
    requires { node < length marks.old.items }
    ensures { marks.new.items ≡ slice_set marks.old.items node mark }
{
    marks[node.get() as usize] = mark;
}

/// How many marks there are.
pub fn count_of(marks: &[bool]) -> u16
    requires { length marks.now ≤ 65535 }
    ensures { result ≡ length (filter (λ mark. mark) marks.now) }
{
    marks.iter().filter(|mark| **mark).count() as u16
}
