//! Where a packet goes next.

ghost use Rattle.std.specs.Prelude.{◌≡◌, ◌≢◌, ◌<◌, ◌↔◌, ℕ, IsTrue, IsSome, Some, length, slice_get};
ghost use Rattle.std.specs.Option.{option_map};
ghost use Rattle.fabric.specs.FabricParts.{ArePartsKept, node_at};
ghost use Rattle.fabric.specs.Handling.{IsHopOrNone};
ghost use Rattle.fabric.specs.steps.KeptState.{IsKeptPacket};
ghost use Rattle.fabric.specs.Served.{IsServedBy};
ghost use Rattle.fabric.specs.PacketHop.{IsColorHop, hop_over, over_arc};
ghost use Rattle.fabric.specs.steps.Viewed.{AreRouted, viewed};
ghost use Rattle.fabric.specs.declared.packet.Mode.TheVariants as modes;
ghost use Rattle.fabric.specs.declared.packet.State.TheVariants as states;
ghost use Rattle.mrt_graph.specs.GraphInvariant.{IsNetwork};

use crate::in_island::{crossing_of, is_at_network, node_of};
use crate::next_hop::{Crossing, NextHop};
use crate::packet::{Mode, Packet};
use crate::parts::Parts;
use area_graph::{ArcNo, Area, Spot};
use mrt_graph::{Color, NodeNo, RowsOf};
use primary_alt::{Primary, next_hop as hop_by};

/// The next hop of a packet that is going, if there is one.
pub fn next_hop<R: RowsOf>(parts: &Parts<'_, R>, packet: &Packet) -> Option<NextHop>
    requires kept { ArePartsKept (viewed R.rows parts.now) }
    requires routed { AreRouted parts.now }
    requires served { IsServedBy (viewed R.rows parts.now) parts.now.routes.now packet.now.to }
    requires packet { IsKeptPacket (viewed R.rows parts.now) packet.now }
    requires going { packet.now.state ≡ states.Going }
    ensures { IsHopOrNone (viewed R.rows parts.now) packet.now.mode packet.now.place packet.now.to result }
{
    match packet.mode {
        Mode::Primary => primary_hop(parts, packet.place, packet.to),
        Mode::Entered(color) | Mode::Switched(color) => {
            Some(color_hop(parts, color, packet.place, packet.to))
        }
    }
}

/// The hop by the primary of a router.
fn primary_hop<R: RowsOf>(parts: &Parts<'_, R>, x: Spot, t: Spot) -> Option<NextHop>
    requires kept { ArePartsKept (viewed R.rows parts.now) }
    requires routed { AreRouted parts.now }
    requires served { IsServedBy (viewed R.rows parts.now) parts.now.routes.now t }
    requires place { x < length parts.now.area.now.ids }
    requires router { ¬ IsNetwork parts.now.area.now.ids x }
    requires to { t < length parts.now.area.now.ids }
    requires different { x ≢ t }
    ensures { IsHopOrNone (viewed R.rows parts.now) modes.Primary x t result }
{
    let primary = parts.routes.primary(x, t)?;
    Some(hop_over(parts.area, primary))
}

/// The hop over the arcs of a primary.
fn hop_over(area: &Area, primary: Primary) -> NextHop
    requires first { primary.first < length area.now.arcs }
    requires second { (k : ℕ) → primary.second ≡ Some k → k < length area.now.arcs }
    ensures { hop_over area.now.arcs primary.first primary.second primary.next ≡ Some result }
{
    let first = crossing_over(area, primary.first);
    let next = primary.next;
    match primary.second {
        None => NextHop {
            first,
            second: None,
            next,
        },
        Some(second) => NextHop {
            first,
            second: Some(crossing_over(area, second)),
            next,
        },
    }
}

/// The bond of an arc, and the node that the arc leads to.
fn crossing_over(area: &Area, number: ArcNo) -> Crossing
    requires { number < length area.now.arcs }
    ensures { option_map over_arc (slice_get area.now.arcs number) ≡ Some result }
{
    let arc = area.arc(number);
    Crossing {
        bond: arc.bond,
        node: arc.to,
    }
}

/// The hop on a color.
fn color_hop<R: RowsOf>(parts: &Parts<'_, R>, color: Color, x: Spot, t: Spot) -> NextHop
    requires kept { ArePartsKept (viewed R.rows parts.now) }
    requires routed { AreRouted parts.now }
    requires served { IsServedBy (viewed R.rows parts.now) parts.now.routes.now t }
    requires place { x < length parts.now.area.now.ids }
    requires to { t < length parts.now.area.now.ids }
    requires place_inside { IsSome (node_at (viewed R.rows parts.now) x) }
    requires to_inside { IsSome (node_at (viewed R.rows parts.now) t) }
    requires different { x ≢ t }
    ensures { IsColorHop (viewed R.rows parts.now) color x t result }
{
    let n = node_of(parts, x).unwrap();
    let d = node_of(parts, t).unwrap();
    let hop = hop_by(parts.island, parts.rows, n, d, color);
    let first = crossing_of(parts, &hop);
    if !is_on_the_way(parts.area, first.node, t) {
        let next = first.node;
        return NextHop {
            first,
            second: None,
            next,
        };
    }
    let onward = hop_by(parts.island, parts.rows, hop.to, d, color);
    let second = crossing_of(parts, &onward);
    let next = second.node;
    NextHop {
        first,
        second: Some(second),
        next,
    }
}

/// Whether a node is a network other than the destination.
fn is_on_the_way(area: &Area, v: Spot, t: Spot) -> bool
    requires { v < length area.now.ids }
    ensures { IsTrue result ↔ (IsNetwork area.now.ids v × (v ≢ t)) }
{
    v != t && is_at_network(area, v)
}
