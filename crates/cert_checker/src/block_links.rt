//! The fifth and the sixth rule: the links of blocks.

ghost use Rattle.std.specs.Prelude.{◌≡◌, ◌==◌, ◌<◌, ◌&&◌, IsTrue, length, nat_le, not};
ghost use Rattle.std.specs.List.{list_all};
ghost use Rattle.cert_checker.specs.{steps.Found.FoundFirst, steps.Standing.BlocksHold};
ghost use Rattle.mrt_graph.specs.{CertFields.links_of, CertFields.members, Roles.is_closing, Roles.is_sole};
ghost use Rattle.mrt_graph.specs.HeadsAndBlocks.{
  lone_block,
  lone_if_one_link,
  closed_block,
  closed_unless_one_link,
  closings,
  joins_greatest,
  is_greatest_of,
};

use mrt_graph::{Cert, CertLink, NodeNo, Role};

/// The least node other than the root whose block has one link and breaks the fifth rule; none where the rule is known to
/// hold.
pub(crate) fn first_lone_fault(c: &Cert, root: NodeNo, hold: bool) -> Option<u16>
    requires { IsTrue hold → BlocksHold c.now root }
    ensures { FoundFirst (lone_block c.now root) (length c.now.nodes) result }
{
    if hold {
        return None;
    }
    for a in 0..c.node_count() {
        if !keeps_lone_block(c, root, NodeNo::new(a)) {
            return Some(a);
        }
    }
    None
}

fn keeps_lone_block(c: &Cert, root: NodeNo, a: NodeNo) -> bool
    requires { a < length c.now.nodes }
    ensures { result ≡ lone_block c.now root a }
{
    a == root || is_lone_if_one_link(c, c.node(a).block)
}

fn is_lone_if_one_link(c: &Cert, k: NodeNo) -> bool
    ensures { result ≡ lone_if_one_link c.now k }
{
    if count_links(c, k) != 1 {
        return true;
    }
    count_members(c, k) == 1 && all_sole(c, k)
}

/// The least node other than the root whose block has another number of links and breaks the sixth rule; none where the
/// rule is known to hold.
pub(crate) fn first_closed_fault(c: &Cert, root: NodeNo, hold: bool) -> Option<u16>
    requires { IsTrue hold → BlocksHold c.now root }
    ensures { FoundFirst (closed_block c.now root) (length c.now.nodes) result }
{
    if hold {
        return None;
    }
    for a in 0..c.node_count() {
        if !keeps_closed_block(c, root, NodeNo::new(a)) {
            return Some(a);
        }
    }
    None
}

fn keeps_closed_block(c: &Cert, root: NodeNo, a: NodeNo) -> bool
    requires { a < length c.now.nodes }
    ensures { result ≡ closed_block c.now root a }
{
    let node = c.node(a);
    a == root || is_closed_unless_one_link(c, node.head, node.block)
}

fn is_closed_unless_one_link(c: &Cert, head: NodeNo, k: NodeNo) -> bool
    ensures { result ≡ closed_unless_one_link c.now head k }
{
    if count_links(c, k) == 1 {
        return true;
    }
    none_sole(c, k) && count_closings(c, k) == 1 && closings_join_greatest(c, head, k)
}

fn count_links(c: &Cert, k: NodeNo) -> usize
    ensures { result ≡ length (links_of c.now k) }
{
    c.links().iter().filter(|link| link.block == k).count()
}

fn count_members(c: &Cert, k: NodeNo) -> usize
    ensures { result ≡ length (members c.now k) }
{
    c.nodes().iter().filter(|node| node.block == k).count()
}

fn count_closings(c: &Cert, k: NodeNo) -> usize
    ensures { result ≡ length (closings c.now k) }
{
    c.links().iter().filter(|link| closes(**link, k)).count()
}

fn all_sole(c: &Cert, k: NodeNo) -> bool
    ensures { result ≡ list_all (λ link. is_sole link.role) (links_of c.now k) }
{
    c.links()
        .iter()
        .filter(|link| link.block == k)
        .all(|link| matches!(link.role, Role::Sole))
}

fn none_sole(c: &Cert, k: NodeNo) -> bool
    ensures { result ≡ list_all (λ link. not (is_sole link.role)) (links_of c.now k) }
{
    c.links()
        .iter()
        .filter(|link| link.block == k)
        .all(|link| !matches!(link.role, Role::Sole))
}

fn closings_join_greatest(c: &Cert, head: NodeNo, k: NodeNo) -> bool
    ensures { result ≡ list_all (joins_greatest c.now head k) (closings c.now k) }
{
    c.links()
        .iter()
        .filter(|link| closes(**link, k))
        .all(|link| joins(c, head, k, link))
}

fn joins(c: &Cert, head: NodeNo, k: NodeNo, link: &CertLink) -> bool
    ensures { result ≡ joins_greatest c.now head k link.now }
{
    if link.a == head && is_greatest(c, k, link.b) {
        return true;
    }
    link.b == head && is_greatest(c, k, link.a)
}

/// Whether `x` is the node of greatest order in block `k`.
fn is_greatest(c: &Cert, k: NodeNo, x: NodeNo) -> bool
    ensures { result ≡ is_greatest_of c.now k x }
{
    match c.nodes().get(x.get() as usize) {
        None => false,
        Some(node) => node.block == k && none_above(c, k, node.order),
    }
}

fn none_above(c: &Cert, k: NodeNo, order: u16) -> bool
    ensures { result ≡ list_all (λ node. nat_le node.order order) (members c.now k) }
{
    c.nodes()
        .iter()
        .filter(|node| node.block == k)
        .all(|node| node.order <= order)
}

/// Whether the link is a closing link of block `k`.
fn closes(link: CertLink, k: NodeNo) -> bool
    ensures { result ≡ ((link.block == k) && is_closing link.role) }
{
    link.block == k && matches!(link.role, Role::Closing)
}
