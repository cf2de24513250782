//! A search over nodes: which it has found, and which of these it has still to follow.

use crate::no_memory::NoMemory;
use std::alloc::Global;
use std::marker::Model;

/// A search over nodes that are numbered from 0. It lists each node once, in the order in which it was found, and hands
/// them out in that order, so that the caller can enter what each of them leads to.
///
/// All its memory is taken at the start.
#[derive(Drop)]
pub struct NodeSearch {
    marks: Vec<bool>,
    found: Vec<u16>,
    followed: usize,
}

impl Model for NodeSearch {
    ghost use Rattle.std.specs.Prelude.{◌≤◌, ◌+◌, length, vec_capacity};
    ghost use Rattle.mrt_graph.specs.steps.Search.{AreBelow};
    ghost use Rattle.mrt_graph.specs.Search.{SearchState, unmarked};

    ghost Value = { SearchState };

    ghost view = { λ s. record { marks = s.marks.items; found = s.found.items; followed = s.followed } };

    ghost invariant = { λ s. (unmarked s.marks.items + length s.found.items ≤ vec_capacity s.found)
        × (s.followed ≤ length s.found.items) × AreBelow (length s.marks.items) s.found.items };
}

impl NodeSearch {
    ghost use Rattle.std.specs.Prelude.{◌≡◌, ◌<◌, ◌≤◌, IfOk, IfSome, IfNone, length};
    ghost use Rattle.mrt_graph.specs.Search.{Enters, HandsOut, IsBegun, found_with};

    /// A search over `count` nodes that has found `start` alone.
    ///
    /// It takes time in proportion to the nodes; a search takes, beside its steps, as many turns as it finds nodes.
    pub fn new(alloc: Global, count: u16, start: u16) -> Result<NodeSearch, NoMemory>
        requires { start < count }
        ensures { IfOk result (IsBegun count start) }
    {
        let marks = vec![in alloc; false; count as usize]?;
        let found = Vec::with_capacity(alloc, count as usize)?;
        let mut search = NodeSearch {
            marks,
            found,
            followed: 0,
        };
        search.enter(start);
        Ok(search)
    }

    /// Finds a node, if it is not found yet.
    pub fn enter(&mut self, node: u16)
        requires { node < length self.old.marks }
        ensures entered { Enters (λ v. v ≡ node) self.old self.new }
        ensures listed { self.new.found ≡ found_with self.old node }
    {
        let place = node as usize;
        if self.marks[place] {
            return;
        }
        self.marks[place] = true;
        self.found.push(node).unwrap();
    }

    /// The next found node that is to be followed, if one is left.
    pub fn next(&mut self) -> Option<u16>
        ensures some { IfSome result (HandsOut self.old self.new) }
        ensures none { IfNone result (length self.new.found ≤ self.new.followed) }
        ensures unchanged { IfNone result (self.new ≡ self.old) }
    {
        if self.followed >= self.found.len() {
            return None;
        }
        let node = self.found[self.followed];
        self.followed += 1;
        Some(node)
    }

    /// Of each node whether it was found.
    pub fn into_marks(self) -> Vec<bool>
        ensures { result.items ≡ self.marks }
    {
        self.marks
    }
}
