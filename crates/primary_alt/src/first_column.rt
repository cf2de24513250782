//! The first arcs of all nodes on shortest paths to one.

use crate::first_arc::FirstArc;
use area_graph::{ArcNo, Spot};
use std::marker::Model;

/// Of each node the first arc on a shortest path to one destination.
pub struct FirstColumn {
    firsts: Vec<FirstArc>,
}

impl Drop for FirstColumn {
    fn drop(self) {
        let Self { firsts: _ } = self;
    }
}

impl Model for FirstColumn {
    ghost use Rattle.std.specs.Prelude.{ℕ, List, Option};

    ghost Value = { List (Option ℕ) };

    ghost view = { λ column. column.firsts.items };
}

impl FirstColumn {
    ghost use Rattle.std.specs.Prelude.{◌≡◌, ◌<◌, None, length, slice_index_or};

    pub fn new(firsts: Vec<FirstArc>) -> FirstColumn
        ensures { result ≡ firsts.items }
    {
        FirstColumn { firsts }
    }

    /// The first arc of a node.
    pub fn first_of(&self, x: Spot) -> Option<ArcNo>
        requires { x < length self.now }
        ensures { result ≡ slice_index_or self.now x None }
    {
        self.firsts[x.get() as usize].get()
    }
}
