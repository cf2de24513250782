//! The second rule: the root stands first, and the order numbers differ.

ghost use Rattle.std.specs.Prelude.{◌≡◌, ◌<◌, IsTrue, length, MatchOption};
ghost use Rattle.cert_checker.specs.steps.Found.{FoundFirst, FoundPair};
ghost use Rattle.mrt_graph.specs.{Places.EachPair, RootAndOrders.RootAndOrders, RootAndOrders.OrderFault, RootAndOrders.root_stands, RootAndOrders.orders_differ, SameGraph.SameCounts};

use crate::fault_at::FaultAt;
use crate::key_table::{KEYS, has_number, set_number};
use mrt_graph::{Cert, CertFile, Graph, NodeNo};

/// The root and the root; or the least node that has an equal above it, and the least of those.
pub(crate) fn order_fault(g: &Graph, root: NodeNo, f: &CertFile) -> Option<FaultAt>
    requires counts { SameCounts g.now f.now.cert }
    requires root { root < length g.now.ids }
    ensures { MatchOption result (RootAndOrders g.now root f.now)
        (λ place. OrderFault g.now root f.now place.a place.b) }
{
    if !is_root_first(g, root, f) {
        let at = root.get();
        return Some(FaultAt { a: at, b: at });
    }
    first_equal_orders(&f.cert)
}

fn is_root_first(g: &Graph, root: NodeNo, f: &CertFile) -> bool
    requires counts { SameCounts g.now f.now.cert }
    requires root { root < length g.now.ids }
    ensures { result ≡ root_stands g.now root f.now }
{
    g.id(root).number == f.root && f.cert.node(root).order == 1
}

fn first_equal_orders(c: &Cert) -> Option<FaultAt>
    ensures { FoundPair (orders_differ c.now) (length c.now.nodes) result }
{
    if each_is_last(c) {
        return None;
    }
    for a in 0..c.node_count() {
        if let Some(b) = first_equal_above(c, NodeNo::new(a)) {
            return Some(FaultAt { a, b });
        }
    }
    None
}

/// Whether each node is the last one of its order, so that no two have one. It is one pass.
#[inline(never)]
fn each_is_last(c: &Cert) -> bool
    ensures { IsTrue result → EachPair (orders_differ c.now) (length c.now.nodes) }
{
    let mut last = [0; KEYS];
    for v in 0..c.node_count() {
        set_number(&mut last, c.node(NodeNo::new(v)).order, v);
    }
    for a in 0..c.node_count() {
        if !has_number(&last, c.node(NodeNo::new(a)).order, a) {
            return false;
        }
    }
    true
}

fn first_equal_above(c: &Cert, a: NodeNo) -> Option<u16>
    requires { a < length c.now.nodes }
    ensures { FoundFirst (orders_differ c.now a) (length c.now.nodes) result }
{
    let count = c.node_count();
    let order = c.node(a).order;
    for b in a.get() + 1..count {
        if c.node(NodeNo::new(b)).order == order {
            return Some(b);
        }
    }
    None
}
