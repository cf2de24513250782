//! What two nodes are to each other, by the heads and the blocks of both, and the carrier for those that have no block in
//! common.

ghost use Rattle.std.specs.Prelude.{◌≡◌, ◌≢◌, ◌<◌, ℕ, Some, [], length};
ghost use Rattle.std.specs.List.{AllByRecursion};
ghost use Rattle.mrt_graph.specs.Certificate.{IsCertNode, certificate_of};
ghost use Rattle.mrt_graph.specs.Related.{IsRelation, are_unrelated, carrier};

use crate::cert::CertNode;
use crate::gadag::Place;
use crate::numbers::NodeNo;

/// What a node is to another one.
#[derive(Clone, Copy)]
pub enum Relation {
    /// They lie in one block.
    OneBlock,
    /// The other one is the head of its block.
    ToHead,
    /// It is the head of the block of the other one.
    FromHead,
    /// They have no block in common.
    Apart,
}

impl Relation {
    ghost use Rattle.std.specs.Prelude.{◌≡◌};
    ghost use Rattle.mrt_graph.specs.Related.{is_apart};

    /// Whether they have no block in common.
    pub fn is_apart(self) -> bool
        ensures { result ≡ is_apart self }
    {
        matches!(self, Relation::Apart)
    }
}

/// What `s` is to another node `t`, by the places of both.
pub fn relation_of(s: NodeNo, here: &Place, t: NodeNo, there: &Place) -> Relation
    ensures { IsRelation s here.now t there.now result }
{
    if here.block == there.block {
        return Relation::OneBlock;
    }
    if here.head == t {
        return Relation::ToHead;
    }
    if there.head == s {
        return Relation::FromHead;
    }
    Relation::Apart
}

/// Whether two nodes have no block in common, by what a certificate says of nodes.
pub fn are_unrelated(nodes: &[CertNode], s: NodeNo, t: NodeNo) -> bool
    requires source { s < length nodes.now }
    requires target { t < length nodes.now }
    ensures { result ≡ are_unrelated (certificate_of nodes.now [] []) s t }
{
    let here = nodes[s.get() as usize].place();
    let there = nodes[t.get() as usize].place();
    relation_of(s, &here, t, &there).is_apart()
}

/// The carrier of a node for a node `t` with which it has no block in common: the node for which it has the links that it
/// has for `t`. That is the head of `t` or, where `t` is the root, the head of the first node. By the places of both.
pub fn carrier_of(root: NodeNo, here: &Place, t: NodeNo, there: &Place) -> NodeNo
    ensures to_other { t ≢ root → result ≡ there.now.head }
    ensures to_root { t ≡ root → result ≡ here.now.head }
{
    if t == root { here.head } else { there.head }
}

/// The carrier of `s` for `t`, by what a certificate says of nodes.
pub fn carrier(nodes: &[CertNode], root: NodeNo, s: NodeNo, t: NodeNo) -> NodeNo
    requires source { s < length nodes.now }
    requires target { t < length nodes.now }
    ensures value { carrier (certificate_of nodes.now [] []) root s t ≡ Some result }
    ensures within { (n : ℕ) → AllByRecursion (IsCertNode n) nodes.now → result < n }
{
    let here = nodes[s.get() as usize].place();
    let there = nodes[t.get() as usize].place();
    carrier_of(root, &here, t, &there)
}
