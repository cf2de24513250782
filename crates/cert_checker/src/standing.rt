//! The fifth and the sixth rule in one pass, where they hold.

ghost use Rattle.std.specs.Prelude.{◌≡◌, ◌≢◌, ◌<◌, IfSome, IsTrue, Some, length, true};
ghost use Rattle.cert_checker.specs.{steps.KnownNode.IsKnown, steps.Standing.BlocksHold};
ghost use Rattle.cert_checker.specs.{steps.Standing.FitsRole, steps.Standing.HasOpen, steps.Standing.IsOver, steps.Standing.NodeFits, steps.Standing.across, steps.Standing.link_fits, steps.Standing.standing};
ghost use Rattle.mrt_graph.specs.{HeadsAndBlocks.HeadsHold, SameGraph.SameCounts};

use crate::key_table::{KEYS, has_number, set_number};
use crate::known_node::{KnownNode, known_node};
use mrt_graph::{Cert, CertLink, Graph, LinkNo, NodeNo, Role};

/// Whether both rules are found to hold. They may hold where they are not, if another rule fails.
///
/// For each block stands its last link that is not plain. That has to be the block's one link, or its closing link.
#[inline(never)]
pub(crate) fn blocks_hold(g: &Graph, c: &Cert, root: NodeNo) -> bool
    requires counts { SameCounts g.now c.now }
    requires root { root < length c.now.nodes }
    requires heads { HeadsHold c.now root }
    ensures { IsTrue result → BlocksHold c.now root }
{
    let mut table = [0; KEYS];
    for m in 0..c.link_count() {
        let link = c.link(LinkNo::new(m));
        if !matches!(link.role, Role::Plain) {
            set_number(&mut table, link.block.get(), m);
        }
    }
    for e in 0..c.link_count() {
        if !link_fits(c, &table, LinkNo::new(e)) {
            return false;
        }
    }
    for a in 0..c.node_count() {
        if !node_fits(g, c, root, &table, &known_node(c, NodeNo::new(a))) {
            return false;
        }
    }
    true
}

/// The link that stands for a block.
fn standing(c: &Cert, table: &[u16], k: NodeNo) -> Option<CertLink>
    ensures { IfSome result (λ link. standing c.now table.now k ≡ Some link) }
{
    let e = *table.get(k.get() as usize)?;
    if e >= c.link_count() {
        return None;
    }
    Some(c.link(LinkNo::new(e)))
}

/// Whether a link stands for its block; or it is plain, and a closing link does.
fn link_fits(c: &Cert, table: &[u16], e: LinkNo) -> bool
    requires { e < length c.now.links }
    ensures { IsTrue result → link_fits c.now table.now e ≡ true }
{
    let link = c.link(e);
    if has_number(table, link.block.get(), e.get()) {
        return true;
    }
    match standing(c, table, link.block) {
        None => false,
        Some(other) => matches!(link.role, Role::Plain) && matches!(other.role, Role::Closing),
    }
}

/// Whether a node is the root, or the link that stands for its block joins its head and a node that suits it.
fn node_fits(g: &Graph, c: &Cert, root: NodeNo, table: &[u16], node: &KnownNode) -> bool
    requires counts { SameCounts g.now c.now }
    requires node { IsKnown c.now node.now }
    ensures { IsTrue result → node.now.number ≢ root → NodeFits c.now table.now node.now.number }
{
    if node.number == root {
        return true;
    }
    let Some(link) = standing(c, table, node.words.block) else {
        return false;
    };
    if link.block != node.words.block {
        return false;
    }
    match across(link, node.words.head) {
        None => false,
        Some(x) => fits_role(g, c, node, x, link.role),
    }
}

/// The node at the other end of a link of `s`.
fn across(link: CertLink, s: NodeNo) -> Option<NodeNo>
    ensures { result ≡ across link s }
{
    if link.a == s {
        return Some(link.b);
    }
    if link.b == s {
        return Some(link.a);
    }
    None
}

/// Whether that suits the node, where the link has this role.
fn fits_role(g: &Graph, c: &Cert, node: &KnownNode, x: NodeNo, role: Role) -> bool
    requires counts { SameCounts g.now c.now }
    requires node { IsKnown c.now node.now }
    ensures { IsTrue result → FitsRole c.now node.now.number node.now.words x role }
{
    match role {
        Role::Plain => false,
        Role::Sole => x == node.number,
        Role::Closing => is_over(c, node, x) && (x != node.number || has_open(g, c, node)),
    }
}

/// Whether `x` lies in the block of the node, and has no smaller order.
fn is_over(c: &Cert, node: &KnownNode, x: NodeNo) -> bool
    ensures { IsTrue result → IsOver c.now node.now.words x }
{
    if x.get() >= c.node_count() {
        return false;
    }
    let top = c.node(x);
    top.block == node.words.block && node.words.order <= top.order
}

/// Whether the node has a link of its block that is not closing.
fn has_open(g: &Graph, c: &Cert, node: &KnownNode) -> bool
    requires counts { SameCounts g.now c.now }
    requires node { IsKnown c.now node.now }
    ensures { IsTrue result → HasOpen c.now node.now.words.block }
{
    for end in g.ends(node.number) {
        if is_open(c, node.words.block, end.link) {
            return true;
        }
    }
    false
}

/// Whether a link lies in the block, and is not closing.
fn is_open(c: &Cert, k: NodeNo, e: LinkNo) -> bool
    ensures { IsTrue result → HasOpen c.now k }
{
    if e.get() >= c.link_count() {
        return false;
    }
    let link = c.link(e);
    link.block == k && !matches!(link.role, Role::Closing)
}
