//! The two routers, by their order, and the block that they have in common.

ghost use Rattle.std.specs.Prelude.{◌≡◌, ◌≢◌, ◌<◌, ◌≤◌, ◌↔◌, IsNone, IfSome, true, length};
ghost use Rattle.mrt_graph.specs.{AcceptedFor.IsAcceptedFor, Certificate.Certificate, Related.are_unrelated, Topology.Topology};
ghost use Rattle.proxy_rows.specs.Attachment.{IsAttachment};

use crate::labelled_graph::node_at;
use mrt_graph::{CertNode, NodeNo, are_unrelated};

/// The router with the lower order and the other one, their common block and its head.
#[derive(Clone, Copy)]
pub struct Attachment {
    pub lower: NodeNo,
    pub upper: NodeNo,
    pub block: NodeNo,
    pub head: NodeNo,
}

/// The attachment of two routers, by what a certificate says of nodes; `None` where it gives the two no common block.
///
/// Their proxy rows ask for the certificate's rows for its head, and for no others.
pub fn attach(nodes: &[CertNode], a: NodeNo, b: NodeNo) -> Option<Attachment>
    requires first { a < length nodes.now }
    requires second { b < length nodes.now }
    requires different { a ≢ b }
    ensures found { (g : Topology) (c : Certificate) → c.nodes ≡ nodes.now → IsAcceptedFor g c
        → IfSome result (IsAttachment c a b) }
    ensures head { (g : Topology) (c : Certificate) → c.nodes ≡ nodes.now → IsAcceptedFor g c
        → IfSome result (λ at. at.head < length nodes.now) }
    ensures none { (c : Certificate) → c.nodes ≡ nodes.now
        → (IsNone result ↔ (are_unrelated c a b ≡ true)) }
{
    if are_unrelated(nodes, a, b) {
        return None;
    }
    let one = node_at(nodes, a);
    let other = node_at(nodes, b);
    Some(in_order(a, b, &one, &other))
}

/// Two nodes by their order, with the block of the one with the greater order, and its head.
fn in_order(a: NodeNo, b: NodeNo, one: &CertNode, other: &CertNode) -> Attachment
    ensures ascending { one.now.order < other.now.order → result ≡ record {
      lower = a;
      upper = b;
      block = other.now.block;
      head = other.now.head;
    } }
    ensures descending { other.now.order ≤ one.now.order → result ≡ record {
      lower = b;
      upper = a;
      block = one.now.block;
      head = one.now.head;
    } }
{
    if one.order < other.order {
        Attachment {
            lower: a,
            upper: b,
            block: other.block,
            head: other.head,
        }
    } else {
        Attachment {
            lower: b,
            upper: a,
            block: one.block,
            head: one.head,
        }
    }
}
