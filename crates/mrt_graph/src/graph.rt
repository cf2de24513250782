//! Graphs: nodes by ascending identifier, links between them, and each node's ends in interface order.

ghost use Rattle.std.specs.Prelude.{◌≡◌, ◌-◌, ◌^◌, IfOk, map, min};
ghost use Rattle.mrt_graph.specs.EndsOfLinks.{pair_of};

use crate::cert::{Cert, Color};
use crate::graph_ends::{EndList, end_lists};
use crate::graph_error::GraphError;
use crate::id_places::place_of;
use crate::link::{End, Link, LinkIn};
use crate::no_memory::NoMemory;
use crate::node_id::NodeId;
use crate::numbers::{LinkNo, NodeNo};
use std::alloc::Global;
use std::marker::Model;

/// The most nodes that a graph may have.
const MAX_NODES: usize = 4096;

/// The most links that it may have.
const MAX_LINKS: usize = 16384;

/// A connected graph of routers and transit networks (RFC 2328, section 2.1), as large as an island may be: at most
/// 4,096 nodes and 16,384 links.
///
/// Nodes are numbered from 0 by ascending identifier. Each link has one end at each of its two nodes, and no link
/// joins two networks.
pub struct Graph {
    ids: Vec<NodeId>,
    links: Vec<Link>,
    ends: Vec<EndList>,
}

impl Drop for Graph {
    fn drop(self) {
        let Self {
            ids: _,
            links: _,
            ends: _,
        } = self;
    }
}

impl Model for Graph {
    ghost use Rattle.mrt_graph.specs.GraphInvariant.{IsTopology};
    ghost use Rattle.mrt_graph.specs.steps.GraphInvariant.{topology_of};
    ghost use Rattle.mrt_graph.specs.Topology.{Topology};

    ghost Value = { Topology };

    ghost view = { λ g. topology_of g.ids.items g.links.items g.ends.items };

    ghost invariant = { λ g. IsTopology (topology_of g.ids.items g.links.items g.ends.items) };
}

impl Graph {
    ghost use Rattle.std.specs.Prelude.{◌≡◌, ◌≢◌, ◌<◌, ◌⊎◌, ◌↔◌, Some, Err, IfOk, IfErr, IfSome, IsSome, IsNone, Contains, length, slice_get};
    ghost use Rattle.mrt_graph.specs.{Certificate.row_of, Hop.color_hop, Leads.leads};
    ghost use Rattle.mrt_graph.specs.GraphInvariant.{AreEnds, IsLink, IsTopology};
    ghost use Rattle.mrt_graph.specs.NewGraph.{AreGraphParts, IsGraphOf, IsTooLarge, too_large};

    /// The graph of these identifiers and links.
    ///
    /// The identifiers ascend strictly; there is at least one. Each link has its lower node first, no link joins two
    /// networks, links ascend by `a`, then by `b`, and together they connect all nodes.
    ///
    /// It answers `TooLarge` exactly where there are more than 4,096 nodes or more than 16,384 links.
    ///
    /// It takes time in proportion to nodes and links, and for each node that of sorting its ends.
    pub fn new(alloc: Global, ids: Vec<NodeId>, links: Vec<LinkIn>) -> Result<Graph, GraphError>
        requires { AreGraphParts ids.items links.items }
        ensures made { IfOk result (λ graph. IsGraphOf ids.items links.items graph) }
        ensures too_large { IsTooLarge (length ids.items) (length links.items)
            ↔ (result ≡ Err (too_large (length ids.items) (length links.items))) }
        ensures refused { IfErr result (λ error. (error ≡ GraphError.NoMemory)
            ⊎ (error ≡ too_large (length ids.items) (length links.items))) }
    {
        if ids.len() > MAX_NODES || links.len() > MAX_LINKS {
            return Err(GraphError::TooLarge {
                nodes: saturated(ids.len()),
                links: saturated(links.len()),
            });
        }
        let ends = end_lists(alloc, ids.len(), &links)?;
        let links = pairs(alloc, &links)?;
        Ok(Graph { ids, links, ends })
    }

    /// How many nodes it has. What each graph keeps is told with it.
    pub fn node_count(&self) -> u16
        ensures count { result ≡ length self.now.ids }
        ensures kept { IsTopology self.now }
    {
        self.ids.len() as u16
    }

    /// How many links it has.
    pub fn link_count(&self) -> u16
        ensures count { result ≡ length self.now.links }
        ensures kept { IsTopology self.now }
    {
        self.links.len() as u16
    }

    /// The identifier of a node.
    pub fn id(&self, n: NodeNo) -> NodeId
        requires { n < length self.now.ids }
        ensures { slice_get self.now.ids n ≡ Some result }
    {
        self.ids[n.get() as usize]
    }

    /// The two nodes of a link.
    pub fn link(&self, e: LinkNo) -> Link
        requires { e < length self.now.links }
        ensures value { slice_get self.now.links e ≡ Some result }
        ensures within { IsLink self.now.ids result }
    {
        self.links[e.get() as usize]
    }

    /// The other node of a link that touches `n`.
    pub fn other_node(&self, e: LinkNo, n: NodeNo) -> NodeNo
        requires { IsSome (leads self.now.links e n) }
        ensures { leads self.now.links e n ≡ Some result }
    {
        self.link(e).far_node(n).unwrap()
    }

    /// The interfaces of a node, ordered by metric, then by the neighbour's identifier, then by link number.
    pub fn ends(&self, n: NodeNo) -> &[End]
        requires { n < length self.now.ids }
        ensures value { slice_get self.now.ends n ≡ Some result.now }
        ensures kept { AreEnds (length self.now.ids) self.now.links n result.now }
    {
        self.ends[n.get() as usize].as_slice()
    }

    /// The node of this identifier, if there is one.
    ///
    /// It is a binary search among the nodes.
    pub fn find(&self, id: NodeId) -> Option<NodeNo>
        ensures found { IfSome result (λ n. slice_get self.now.ids n ≡ Some id) }
        ensures none { IsNone result ↔ (Contains self.now.ids id → ⊥) }
    {
        let place = place_of(&self.ids, id)?;
        Some(NodeNo::new(place as u16))
    }

    /// Where a packet for `to` goes from `at` on a color: to the other node of the link that the row of `at` for `to` has.
    ///
    /// Tests call it; packets read their rows by `primary_alt::next_hop`.
    pub fn next(&self, c: &Cert, at: NodeNo, to: NodeNo, color: Color) -> NodeNo
        requires nodes { length c.now.nodes ≡ length self.now.ids }
        requires links { length c.now.links ≡ length self.now.links }
        requires at { at < length self.now.ids }
        requires to { to < length self.now.ids }
        requires different { at ≢ to }
        requires touches { IsSome (color_hop self.now.links (row_of c.now) color to at) }
        ensures { IfSome (color_hop self.now.links (row_of c.now) color to at) (λ hop. hop.to ≡ result) }
    {
        let row = c.row(at, to);
        let link = self.link(match color {
            Color::Blue => row.blue,
            Color::Red => row.red,
        });
        if link.a == at { link.b } else { link.a }
    }
}

/// A count as a number of 32 bits, the greatest one where it is greater.
pub fn saturated(count: usize) -> u32
    ensures { result ≡ min count (2 ^ 32 - 1) }
{
    count.min(u32::MAX as usize) as u32
}

/// The two nodes of each link.
fn pairs(alloc: Global, links: &[LinkIn]) -> Result<Vec<Link>, NoMemory>
    ensures { IfOk result (λ pairs. pairs.items ≡ map pair_of links.now) }
{
    let pairs = links
        .iter()
        .map(|link| Link {
            a: link.a,
            b: link.b,
        })
        .collect(alloc)?;
    Ok(pairs)
}
