//! The primaries of all routers of an area, and what its nodes and bonds are in an island.

ghost use Rattle.std.specs.Prelude.{◌≡◌, ◌<◌, ◌==◌, ◌||◌, false, not, length, slice_index_or};
ghost use Rattle.primary_alt.specs.steps.FirstArcs.{IsFirstColumn, primary_by, primary_over};

use crate::first_arcs::first_columns;
use crate::first_column::FirstColumn;
use crate::in_island::{area_nodes, bonds_of_links, island_nodes};
use crate::of_area::{all_arcs, all_nodes, far_nodes, networks};
use crate::shortest::Primary;
use area_graph::{ArcNo, Area, BondNo, Spot};
use mrt_graph::{Graph, LinkNo, NoMemory, NodeNo};
use std::alloc::Global;
use std::marker::Model;

/// The primaries of all routers of an area for some of its nodes or for all, and the numbers by which its nodes and
/// bonds go in an island.
///
/// Of each node, for each of the destinations, it keeps two bytes: the number of the first arc on a shortest path. A
/// primary is put together from these when it is asked for.
pub struct Routes {
    /// Of each node, where it is a destination, of all nodes the first arcs on shortest paths there.
    columns: Vec<Option<FirstColumn>>,
    /// Of each arc the node that it leads to.
    leads: Vec<Spot>,
    /// Of each node whether it is a network.
    networks: Vec<bool>,
    /// Of each node of the area the island node that it is.
    nodes: Vec<Option<NodeNo>>,
    /// Of each bond of the area the island link that it is.
    links: Vec<Option<LinkNo>>,
    /// Of each island node the node of the area.
    spots: Vec<Spot>,
    /// Of each island link the bond of the area.
    bonds: Vec<BondNo>,
}

impl Drop for Routes {
    fn drop(self) {
        let Self {
            columns: _,
            leads: _,
            networks: _,
            nodes: _,
            links: _,
            spots: _,
            bonds: _,
        } = self;
    }
}

impl Model for Routes {
    ghost use Rattle.primary_alt.specs.RouteLists.{RouteLists};
    ghost use Rattle.primary_alt.specs.steps.FirstArcs.{IsTable, columns_of};

    ghost Value = { RouteLists };

    ghost view = { λ r. record { primaries = columns_of r.networks.items r.leads.items r.columns.items; nodes = r.nodes.items; links = r.links.items; spots = r.spots.items; bonds = r.bonds.items } };

    ghost invariant = { λ r. IsTable r.networks.items r.leads.items r.columns.items };
}

impl Routes {
    ghost use Rattle.std.specs.Prelude.{◌≡◌, ◌<◌, ◌↔◌, ℕ, Contains, IfOk, IsNone, Some, length, slice_get};
    ghost use Rattle.area_graph.specs.{Fits.Fits, Parts.AreaParts};
    ghost use Rattle.mrt_graph.specs.Topology.{Topology};
    ghost use Rattle.primary_alt.specs.RouteLists.{HasColumn, primary_at};
    ghost use Rattle.primary_alt.specs.RoutesMade.{AreMade, AreMadeWith, HasNoPrimary};

    /// The routes of an area and of a graph that fits it, for all nodes of the area; `link_of` has of each bond the link
    /// that it is.
    ///
    /// It takes the time and the memory of the routes to all nodes.
    pub fn new(
        alloc: Global,
        area: &Area,
        g: &Graph,
        link_of: &[Option<LinkNo>],
    ) -> Result<Routes, NoMemory>
        requires fits { Fits area.now g.now link_of.now }
        ensures made { IfOk result (λ routes. AreMadeWith area.now g.now routes) }
        ensures links { IfOk result (λ routes. routes.links ≡ link_of.now) }
    {
        let nodes = all_nodes(alloc, area)?;
        let routes = Routes::to(alloc, area, g, link_of, &nodes)?;
        Ok(routes)
    }

    /// The routes to these nodes of the area alone, of which some may be named more than once.
    ///
    /// One search for each different destination, backwards along the arcs, gives the distances of all nodes to it, and
    /// one pass over the arcs the first one of each node that attains them. So it takes time in proportion to the
    /// different destinations times the arcs, times the logarithm of the latter. What it keeps is two bytes for each of
    /// these destinations and each node, and a few words for each node, arc and bond.
    pub fn to(
        alloc: Global,
        area: &Area,
        g: &Graph,
        link_of: &[Option<LinkNo>],
        destinations: &[Spot],
    ) -> Result<Routes, NoMemory>
        requires fits { Fits area.now g.now link_of.now }
        requires within { (t : ℕ) → Contains destinations.now t → t < length area.now.ids }
        ensures made { IfOk result (λ routes. AreMade area.now g.now routes) }
        ensures columns { IfOk result (λ routes. (t : ℕ) → HasColumn routes t ↔ Contains destinations.now t) }
        ensures links { IfOk result (λ routes. routes.links ≡ link_of.now) }
    {
        let arcs = all_arcs(alloc, area)?;
        let columns = first_columns(alloc, area, &arcs, destinations)?;
        let leads = far_nodes(alloc, &arcs)?;
        let networks = networks(alloc, area)?;
        let links = Vec::from_slice(alloc, link_of)?;
        let spots = area_nodes(alloc, area, g)?;
        let nodes = island_nodes(alloc, area, g, &spots)?;
        let bonds = bonds_of_links(alloc, area, &arcs, g, link_of)?;
        Ok(Routes {
            columns,
            leads,
            networks,
            nodes,
            links,
            spots,
            bonds,
        })
    }

    /// Where a router sends a packet for `t` (RFC 2328, section 16.1): None where `x` is `t`, where no walk leads
    /// there, where `x` is a network, and where `t` is none of the destinations.
    ///
    /// It takes the time of reading at most two first arcs.
    pub fn primary(&self, x: Spot, t: Spot) -> Option<Primary>
        requires from { x < length self.now.primaries }
        requires to { t < length self.now.primaries }
        ensures primary { result ≡ primary_at self.now x t }
        ensures none { (area : AreaParts) (graph : Topology) → AreMade area graph self.now
            → (IsNone result ↔ HasNoPrimary area self.now x t) }
    {
        match &self.columns[t.get() as usize] {
            Some(column) => primary_by(&self.networks, &self.leads, column, x, t),
            None => None,
        }
    }

    /// The island node that a node of the area is; None where it is not of the island.
    pub fn node(&self, s: Spot) -> Option<NodeNo>
        requires { s < length self.now.nodes }
        ensures { slice_get self.now.nodes s ≡ Some result }
    {
        self.nodes[s.get() as usize]
    }

    /// The island link that a bond is; None where it is not of the island.
    pub fn link(&self, b: BondNo) -> Option<LinkNo>
        requires { b < length self.now.links }
        ensures { slice_get self.now.links b ≡ Some result }
    {
        self.links[b.get() as usize]
    }

    /// The node of the area that an island node is.
    pub fn spot(&self, n: NodeNo) -> Spot
        requires { n < length self.now.spots }
        ensures { slice_get self.now.spots n ≡ Some result }
    {
        self.spots[n.get() as usize]
    }

    /// The bond that an island link is: the one whose link it is.
    pub fn bond(&self, e: LinkNo) -> BondNo
        requires { e < length self.now.bonds }
        ensures { slice_get self.now.bonds e ≡ Some result }
    {
        self.bonds[e.get() as usize]
    }
}

/// By the column for `t`, where `x` sends a packet, put together from the first arcs of `x` and of a network on the way.
fn primary_by(
    networks: &[bool],
    leads: &[Spot],
    column: &FirstColumn,
    x: Spot,
    t: Spot,
) -> Option<Primary>
    requires kept { IsFirstColumn networks.now leads.now column.now }
    requires from { x < length networks.now }
    requires to { t < length networks.now }
    ensures { result ≡ primary_by networks.now leads.now column.now x t }
{
    if sends_nothing(networks, x, t) {
        return None;
    }
    let first = column.first_of(x)?;
    primary_over(networks, leads, column, t, first)
}

/// Whether `x` is `t`, or a network.
fn sends_nothing(networks: &[bool], x: Spot, t: Spot) -> bool
    requires { x < length networks.now }
    ensures { result ≡ ((x == t) || slice_index_or networks.now x false) }
{
    x == t || networks[x.get() as usize]
}

/// By the column for `t`, the primary over a first arc.
fn primary_over(
    networks: &[bool],
    leads: &[Spot],
    column: &FirstColumn,
    t: Spot,
    first: ArcNo,
) -> Option<Primary>
    requires kept { IsFirstColumn networks.now leads.now column.now }
    requires first { first < length leads.now }
    requires to { t < length networks.now }
    ensures { result ≡ primary_over networks.now leads.now column.now t first (slice_index_or leads.now first 0) }
{
    let to = leads[first.get() as usize];
    if ends_hop(networks, to, t) {
        return Some(Primary {
            first,
            second: None,
            next: to,
        });
    }
    let second = column.first_of(to)?;
    Some(Primary {
        first,
        second: Some(second),
        next: leads[second.get() as usize],
    })
}

/// Whether a hop ends at that node: it is `t`, or a router.
fn ends_hop(networks: &[bool], to: Spot, t: Spot) -> bool
    requires { to < length networks.now }
    ensures { result ≡ ((to == t) || not (slice_index_or networks.now to false)) }
{
    to == t || !networks[to.get() as usize]
}
