//! What can be reached without a link or a node.

ghost use Rattle.std.specs.Prelude.{◌≡◌, ◌<◌, ◌↔◌, ℕ, IfOk, Some, length, vec_len};
ghost use Rattle.mrt_graph.specs.{Reachable.Reachable, Search.Enters, Search.IsMarked};
ghost use Rattle.mrt_plain.specs.Within.{AreWithin};
ghost use Rattle.mrt_plain.specs.steps.Without.{StepsWithout, onward_without};

use crate::hop::lead;
use mrt_graph::{Element, Link, NoMemory, NodeNo, NodeSearch};
use std::alloc::Global;

/// Marks, of `count` nodes, those that walks from `s` reach without `x`.
pub fn settle(
    alloc: Global,
    links: &[Link],
    count: u16,
    x: &Element,
    s: NodeNo,
) -> Result<Vec<bool>, NoMemory>
    requires within { AreWithin count links.now }
    requires source { s < count }
    ensures count { IfOk result (λ marks. vec_len marks ≡ count) }
    ensures reached { IfOk result (λ marks. (t : ℕ) → IsMarked marks.items t ↔ Reachable (StepsWithout links.now x.now) s t) }
{
    let mut search = NodeSearch::new(alloc, count, s.get())?;
    while let Some(at) = search.next() {
        visit(links, x, NodeNo::new(at), &mut search);
    }
    Ok(search.into_marks())
}

/// Enters all nodes that a link leads to from `at`, without `x`.
fn visit(links: &[Link], x: &Element, at: NodeNo, search: &mut NodeSearch)
    requires within { AreWithin (length search.old.marks) links.now }
    ensures { Enters (StepsWithout links.now x.now at) search.old search.new }
{
    for e in 0..links.len() {
        pass(links, e, x, at, search);
    }
}

/// Enters the node that link number `e` leads to from `at`, without `x`.
fn pass(links: &[Link], e: usize, x: &Element, at: NodeNo, search: &mut NodeSearch)
    requires within { AreWithin (length search.old.marks) links.now }
    ensures { Enters (λ v. onward_without links.now x.now at e ≡ Some v) search.old search.new }
{
    if let Some(to) = onward(links, e, x, at) {
        search.enter(to.get());
    }
}

/// Where link number `e` leads from `at`, if neither the link nor that node is `x`.
fn onward(links: &[Link], e: usize, x: &Element, at: NodeNo) -> Option<NodeNo>
    ensures { result ≡ onward_without links.now x.now at e }
{
    let to = lead(links, e, at)?;
    let avoids = match x {
        Element::Link(other) => e != other.get() as usize,
        Element::Node(other) => to != *other,
    };
    if avoids { Some(to) } else { None }
}
