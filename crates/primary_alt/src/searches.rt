//! Distances from one node after another.

ghost use Rattle.std.specs.Prelude.{◌≡◌, ◌<◌, IfOk, OnOk, length};

use crate::arcs_into::ArcsInto;
use crate::backward::{Offer, distances_to, forget};
use crate::of_area::all_arcs;
use crate::turned::turned;
use area_graph::{Area, Spot};
use mrt_graph::NoMemory;
use std::alloc::Global;
use std::cmp::Reverse;
use std::collections::BinaryHeap;
use std::marker::Model;

/// Searches for the distances from nodes of an area: what one search needs serves the next one too.
pub struct Searches<'a> {
    area: &'a Area,
    /// The arcs of the area turned round, by the node that each leaves.
    into: ArcsInto,
    waiting: BinaryHeap<Reverse<Offer>>,
}

impl Drop for Searches<'_> {
    fn drop(self) {
        let Self {
            area: _,
            into: _,
            waiting: _,
        } = self;
    }
}

impl<'a> Model for Searches<'a> {
    ghost use Rattle.area_graph.specs.Parts.{AreaParts};
    ghost use Rattle.primary_alt.specs.steps.DistancesFrom.{AreItsArcs};

    ghost Value = { AreaParts };

    ghost view = { λ s. s.area.now };

    ghost invariant = { λ s. AreItsArcs s.area.now s.into.arcs.items s.into.starts.items };
}

impl<'a> Searches<'a> {
    ghost use Rattle.std.specs.Prelude.{◌≡◌, ◌<◌, ℕ, IfOk, OnErr, OnOk, length};
    ghost use Rattle.primary_alt.specs.{Distances.HasDistance, DistancesFrom.AreDistancesFrom};

    /// Searches in an area.
    pub fn new(alloc: Global, area: &'a Area) -> Result<Searches<'a>, NoMemory>
        ensures { IfOk result (λ searches. searches ≡ area.now) }
    {
        let arcs = all_arcs(alloc, area)?;
        let others = turned(alloc, &arcs)?;
        let into = ArcsInto::new(alloc, others, area.count())?;
        let waiting = BinaryHeap::with_capacity(alloc, into.arcs.len() + 1)?;
        Ok(Searches {
            area,
            into,
            waiting,
        })
    }

    /// Puts the distance from `s` to each node of the area into a list that has an entry for each node. What the list
    /// holds before is forgotten.
    ///
    /// It takes time in proportion to the arcs, times the logarithm of their number.
    ///
    /// # Errors
    ///
    /// [`NoMemory`] where there was none. Then the list knows no distance, and the searches are as they were.
    pub fn distances(&mut self, s: Spot, known: &mut Vec<Option<u32>>) -> Result<(), NoMemory>
        requires one_each { length known.old.items ≡ length self.old.ids }
        requires node { s < length self.old.ids }
        ensures same { self.new ≡ self.old }
        ensures one_each { length known.new.items ≡ length self.old.ids }
        ensures distances { OnOk result (AreDistancesFrom self.old.arcs s known.new.items) }
        ensures none { OnErr result ((v distance : ℕ) → ¬ HasDistance known.new.items v distance) }
    {
        // what each area keeps is told by reading it
        let _count = self.area.count();
        match distances_to(&self.into, s, known, &mut self.waiting) {
            Ok(()) => Ok(()),
            Err(NoMemory) => {
                forget(known);
                Err(NoMemory)
            }
        }
    }
}
