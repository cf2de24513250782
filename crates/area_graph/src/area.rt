//! Areas.

ghost use Rattle.std.specs.Prelude.{◌≡◌, ◌<◌, ◌==◌};
ghost use Rattle.std.specs.{List.filter, List.find, Option.option_map, List.Sorted.IsSorted};
ghost use Rattle.area_graph.specs.AreaInvariant.{by_tail_cmp};
ghost use Rattle.area_graph.specs.steps.Starts.{AreStarts};

use crate::area_types::{Arc, Bond};
use crate::numbers::{ArcNo, BondNo, Spot};
use mrt_graph::{NodeId, place_of};
use std::marker::Model;

/// The graph of an OSPF area (RFC 2328, section 16.1): routers and transit networks, the arcs between them, and the
/// bonds that these make.
///
/// It has at most 4,096 nodes and 32,768 arcs. Nodes are numbered from 0 by ascending identifier. Arcs are numbered by
/// tail, then by metric, then by far node, then by link data, then by their place in the LSA. Of the bonds the pairs
/// come first, by lower, then by higher node, and after them the single arcs in the order of arcs.
pub struct Area {
    ids: Vec<NodeId>,
    arcs: Vec<Arc>,
    /// Of each node the number of arcs whose tail is a lower node, and after them the number of all arcs.
    starts: Vec<usize>,
    bonds: Vec<Bond>,
}

impl Drop for Area {
    fn drop(self) {
        let Self {
            ids: _,
            arcs: _,
            starts: _,
            bonds: _,
        } = self;
    }
}

impl Model for Area {
    ghost use Rattle.std.specs.Prelude.{length};
    ghost use Rattle.area_graph.specs.AreaInvariant.{IsArea};
    ghost use Rattle.area_graph.specs.Parts.{AreaParts};
    ghost use Rattle.area_graph.specs.steps.Starts.{AreStarts};

    ghost Value = { AreaParts };

    ghost view = { λ a. record { ids = a.ids.items; arcs = a.arcs.items; bonds = a.bonds.items } };

    ghost invariant = { λ a. IsArea (record { ids = a.ids.items; arcs = a.arcs.items; bonds = a.bonds.items }) × AreStarts (length a.ids.items) a.arcs.items a.starts.items };
}

impl Area {
    ghost use Rattle.std.specs.Prelude.{◌≡◌, ◌<◌, ◌==◌, ◌↔◌, IfSome, IsNone, Some, Contains, length, slice_get};
    ghost use Rattle.std.specs.List.{AllByRecursion, filter};
    ghost use Rattle.area_graph.specs.{AreaInvariant.IsArc, AreaInvariant.IsArea, Named.IsNamed, Named.bond_named};

    /// An area of these parts.
    pub(crate) fn of_parts(
        ids: Vec<NodeId>,
        arcs: Vec<Arc>,
        starts: Vec<usize>,
        bonds: Vec<Bond>,
    ) -> Area
        requires kept { IsArea (record { ids = ids.items; arcs = arcs.items; bonds = bonds.items }) }
        requires starts { AreStarts (length ids.items) arcs.items starts.items }
        ensures { result ≡ record { ids = ids.items; arcs = arcs.items; bonds = bonds.items } }
    {
        Area {
            ids,
            arcs,
            starts,
            bonds,
        }
    }

    /// The number of nodes.
    pub fn count(&self) -> u16
        ensures count { result ≡ length self.now.ids }
        ensures kept { IsArea self.now }
    {
        self.ids.len() as u16
    }

    /// The identifier of a node.
    pub fn id(&self, s: Spot) -> NodeId
        requires { s < length self.now.ids }
        ensures { slice_get self.now.ids s ≡ Some result }
    {
        self.ids[s.get() as usize]
    }

    /// The node of this identifier, if there is one.
    ///
    /// It is a binary search among the nodes.
    pub fn find(&self, id: NodeId) -> Option<Spot>
        ensures found { IfSome result (λ s. slice_get self.now.ids s ≡ Some id) }
        ensures within { IfSome result (λ s. s < length self.now.ids) }
        ensures none { IsNone result ↔ (Contains self.now.ids id → ⊥) }
    {
        let place = place_of(&self.ids, id)?;
        Some(Spot::new(place as u16))
    }

    /// The arcs of a node, in their order.
    pub fn arcs(&self, s: Spot) -> &[Arc]
        requires { s < length self.now.ids }
        ensures value { result.now ≡ filter (λ arc. arc.tail == s) self.now.arcs }
        ensures kept { AllByRecursion (IsArc self.now.ids self.now.bonds) result.now }
    {
        row(&self.arcs, &self.starts, self.ids.len(), s)
    }

    /// An arc, by its number.
    pub fn arc(&self, a: ArcNo) -> Arc
        requires { a < length self.now.arcs }
        ensures value { slice_get self.now.arcs a ≡ Some result }
        ensures kept { IsArc self.now.ids self.now.bonds result }
    {
        self.arcs[a.get() as usize]
    }

    /// The bonds, by number.
    pub fn bonds(&self) -> &[Bond]
        ensures value { result.now ≡ self.now.bonds }
        ensures kept { IsArea self.now }
    {
        self.bonds.as_slice()
    }

    /// The bond of the first arc of that router with that link data, if there is one.
    ///
    /// It is a binary search among the nodes, and then looks at the router's arcs one after another.
    pub fn named(&self, router: u32, link_data: u32) -> Option<BondNo>
        ensures bond { result ≡ bond_named self.now router link_data }
        ensures none { IsNone result ↔ ((arc : Arc) → IsNamed self.now router link_data arc → ⊥) }
    {
        let place = place_of(&self.ids, NodeId::router(router))?;
        let spot = Spot::new(place as u16);
        with_data(
            row(&self.arcs, &self.starts, self.ids.len(), spot),
            link_data,
        )
    }
}

/// The bond of the first of these arcs with that link data.
fn with_data(arcs: &[Arc], link_data: u32) -> Option<BondNo>
    ensures { result ≡ option_map (λ arc. arc.bond) (find (λ arc. arc.link_data == link_data) arcs.now) }
{
    let arc = arcs.iter().find(|arc| arc.link_data == link_data)?;
    Some(arc.bond)
}

/// The arcs that leave one of so many nodes, where they ascend and `starts` tells where those of each node begin.
fn row<'a>(arcs: &'a [Arc], starts: &[usize], count: usize, s: Spot) -> &'a [Arc]
    requires within { s < count }
    requires ascend { IsSorted by_tail_cmp arcs.now }
    requires starts { AreStarts count arcs.now starts.now }
    ensures { result.now ≡ filter (λ arc. arc.tail == s) arcs.now }
{
    let place = s.get() as usize;
    let from = starts[place];
    let to = starts[place + 1];
    &arcs[from..to]
}
