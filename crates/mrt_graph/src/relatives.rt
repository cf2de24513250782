//! An index of the nodes that are related to each one.

ghost use Rattle.std.specs.Prelude.{◌≡◌, ◌≢◌, ◌<◌, ◌≤◌, ◌-◌, IfOk, IfSome, Some, if◌then◌else◌, length, nat_lt, not, slice_get, slice_index_or};
ghost use Rattle.std.specs.List.{AllByRecursion};
ghost use Rattle.mrt_graph.specs.{steps.BlockPlaces.AreBlockPlaces, Certificate.Certificate, Certificate.IsCertNode};
ghost use Rattle.mrt_graph.specs.Groups.{count_below, has_key, with_key};
ghost use Rattle.mrt_graph.specs.steps.Kin.{AreStarts, IsUpperNumber, kin_below};
ghost use Rattle.mrt_graph.specs.Kin.{IsUpper, Kin, is_upper, kin_of, outer_head};
ghost use Rattle.mrt_graph.specs.{Related.are_unrelated, RelatedPairs.place_of_near, RelatedPairs.related_pairs, RelatedPairs.set_marks};

use crate::cert::CertNode;
use crate::groups::{Groups, count_lower};
use crate::no_memory::NoMemory;
use crate::numbers::NodeNo;
use std::alloc::Global;
use std::marker::Model;

/// An index of which nodes of a certificate are related: the members of each block, the children of each node, and where
/// the rows of each node begin among those of related nodes.
///
/// It takes 20 bytes a node, and nothing for a pair.
#[derive(Drop)]
pub struct Relatives {
    members: Groups,
    children: Groups,
    begins: Vec<u32>,
}

impl Model for Relatives {
    ghost use Rattle.mrt_graph.specs.steps.Kin.{IsIndex};
    ghost use Rattle.mrt_graph.specs.Kin.{Kin};

    ghost Value = { Kin };

    ghost view = { λ r. record { blocks = r.members; heads = r.children } };

    ghost invariant = { λ r. IsIndex (record { blocks = r.members; heads = r.children }) r.begins.items };
}

impl Relatives {
    /// An index of these nodes, whatever heads and blocks they have.
    ///
    /// It takes time in proportion to the nodes.
    pub fn new(alloc: Global, nodes: &[CertNode]) -> Result<Relatives, NoMemory>
        requires few { length nodes.now ≤ 65535 }
        requires kept { AllByRecursion (IsCertNode (length nodes.now)) nodes.now }
        ensures { IfOk result (λ relatives. relatives ≡ kin_of nodes.now) }
    {
        let members = Groups::new(alloc, blocks_of(alloc, nodes)?)?;
        let children = Groups::new(alloc, heads_of(alloc, nodes)?)?;
        let begins = begins_of(alloc, nodes, &members, &children)?;
        Ok(Relatives {
            members,
            children,
            begins,
        })
    }

    /// How many pairs of a node and another one are related.
    pub fn count(&self) -> usize
        ensures { (c : Certificate) → kin_of c.nodes ≡ self.now → result ≡ set_marks (related_pairs c) }
    {
        self.begins[self.begins.len() - 1] as usize
    }

    /// The place of the row of `s` for `t` among the rows of related nodes.
    pub fn place(&self, s: NodeNo, t: NodeNo) -> usize
        requires source { s < length self.now.blocks }
        requires target { t < length self.now.blocks }
        requires different { s ≢ t }
        ensures { (c : Certificate) → kin_of c.nodes ≡ self.now → result ≡ place_of_near c s t }
    {
        let rank = count_before(&self.members, &self.children, s, t);
        let itself = one_if_below(s, t);
        self.begins[s.get() as usize] as usize + rank - itself
    }

    /// Where the rows of `s` for the nodes of its block stand.
    pub(crate) fn block_places(&self, s: NodeNo) -> BlockPlaces<'_>
        requires { s < length self.now.blocks }
        ensures places { AreBlockPlaces result }
        ensures index { result.relatives.now ≡ self.now }
        ensures node { result.node ≡ s }
    {
        BlockPlaces {
            relatives: self,
            node: s,
            block: self.members.key(s),
            upper: upper_number(&self.children, s),
            children: self.children.of(s.get()),
            begin: self.begins[s.get() as usize],
        }
    }

    /// How many nodes of a block stand before a node of it; none where the node lies in another one.
    fn rank(&self, block: u16, t: NodeNo) -> Option<usize>
        requires { t < length self.now.blocks }
        ensures own { IfSome result (λ _. slice_get self.now.blocks t ≡ Some block) }
        ensures value { IfSome result (λ rank. rank ≡ count_below (has_key self.now.blocks block) t) }
    {
        self.members.rank(block, t)
    }

    /// The nodes of a node's block, by ascending number.
    pub fn members(&self, s: NodeNo) -> &[NodeNo]
        requires { s < length self.now.blocks }
        ensures { result.now ≡ with_key self.now.blocks (slice_index_or self.now.blocks s 0) }
    {
        self.members.of(self.members.key(s))
    }

    /// The head of a node, where it lies in another block and is not a child of the node.
    pub fn upper(&self, s: NodeNo) -> Option<NodeNo>
        requires { s < length self.now.blocks }
        ensures { IsUpper self.now.heads s result }
    {
        upper(&self.children, s)
    }

    /// The nodes of other blocks whose head a node is, by ascending number.
    pub fn children(&self, s: NodeNo) -> &[NodeNo]
        requires { s < length self.now.blocks }
        ensures { result.now ≡ with_key self.now.heads s }
    {
        self.children.of(s.get())
    }

    /// Whether two nodes are related.
    pub fn are_related(&self, s: NodeNo, t: NodeNo) -> bool
        requires source { s < length self.now.blocks }
        requires target { t < length self.now.blocks }
        ensures { (c : Certificate) → kin_of c.nodes ≡ self.now → result ≡ not (are_unrelated c s t) }
    {
        if self.members.key(s) == self.members.key(t) {
            return true;
        }
        if self.children.key(s) == t.get() {
            return true;
        }
        self.children.key(t) == s.get()
    }
}

/// Where the rows of one node stand among those of related nodes: what is read once for all of them.
#[derive(Clone, Copy)]
pub struct BlockPlaces<'a> {
    pub(crate) relatives: &'a Relatives,
    pub(crate) node: NodeNo,
    block: u16,
    /// Its head in another block, unless it is a child of the node; as many as there are nodes, where it has none.
    upper: u16,
    children: &'a [NodeNo],
    begin: u32,
}

impl BlockPlaces<'_> {
    ghost use Rattle.std.specs.Prelude.{◌≡◌, ◌≢◌, ◌<◌, IfSome, false, length};
    ghost use Rattle.mrt_graph.specs.{steps.BlockPlaces.AreBlockPlaces, Certificate.Certificate, Groups.count_below, Groups.has_key};
    ghost use Rattle.mrt_graph.specs.{Kin.kin_of, Related.are_unrelated, RelatedPairs.place_of_near};

    /// The place of the node's row for `t`, where that lies in its block; none elsewhere.
    #[inline(always)]
    pub fn place(&self, t: NodeNo) -> Option<usize>
        requires places { AreBlockPlaces self.now }
        requires target { t < length self.now.relatives.now.blocks }
        requires different { self.now.node ≢ t }
        ensures related { IfSome result (λ _. (c : Certificate) → kin_of c.nodes ≡ self.now.relatives.now
            → are_unrelated c self.now.node t ≡ false) }
        ensures value { IfSome result (λ place. (c : Certificate) → kin_of c.nodes ≡ self.now.relatives.now
            → place ≡ place_of_near c self.now.node t) }
    {
        match self.relatives.rank(self.block, t) {
            Some(rank) => Some(self.place_after(rank, t)),
            None => None,
        }
    }

    /// The place of the row for a node of the block that has so many of the block before it.
    #[inline(always)]
    fn place_after(&self, rank: usize, t: NodeNo) -> usize
        requires places { AreBlockPlaces self.now }
        requires target { t < length self.now.relatives.now.blocks }
        requires different { self.now.node ≢ t }
        requires rank { rank ≡ count_below (has_key self.now.relatives.now.blocks self.now.block) t }
        ensures { (c : Certificate) → kin_of c.nodes ≡ self.now.relatives.now → result ≡ place_of_near c self.now.node t }
    {
        let upper = one_if_less(self.upper, t.get());
        let before = rank + upper + count_lower(self.children, t);
        self.begin as usize + before - one_if_below(self.node, t)
    }
}

/// The block of each node.
fn blocks_of(alloc: Global, nodes: &[CertNode]) -> Result<Vec<u16>, NoMemory>
    requires few { length nodes.now ≤ 65535 }
    requires kept { AllByRecursion (IsCertNode (length nodes.now)) nodes.now }
    ensures { IfOk result (λ keys. keys.items ≡ (kin_of nodes.now).blocks) }
{
    let mut blocks = Vec::with_capacity(alloc, nodes.len())?;
    for node in nodes {
        blocks.push_reserved(node.block.get());
    }
    Ok(blocks)
}

/// The head of each node that lies in another block.
fn heads_of(alloc: Global, nodes: &[CertNode]) -> Result<Vec<u16>, NoMemory>
    requires few { length nodes.now ≤ 65535 }
    requires kept { AllByRecursion (IsCertNode (length nodes.now)) nodes.now }
    ensures { IfOk result (λ keys. keys.items ≡ (kin_of nodes.now).heads) }
{
    let mut heads = Vec::with_capacity(alloc, nodes.len())?;
    for node in nodes {
        heads.push_reserved(outer_head(nodes, node));
    }
    Ok(heads)
}

fn outer_head(nodes: &[CertNode], node: &CertNode) -> u16
    requires few { length nodes.now ≤ 65535 }
    requires head { node.now.head < length nodes.now }
    ensures { result ≡ outer_head nodes.now node.now }
{
    if nodes[node.head.get() as usize].block == node.block {
        return nodes.len() as u16;
    }
    node.head.get()
}

/// Where the rows of each node begin among those of related nodes, and how many there are.
fn begins_of(
    alloc: Global,
    nodes: &[CertNode],
    members: &Groups,
    children: &Groups,
) -> Result<Vec<u32>, NoMemory>
    requires few { length nodes.now ≤ 65535 }
    requires blocks { members.now ≡ (kin_of nodes.now).blocks }
    requires heads { children.now ≡ (kin_of nodes.now).heads }
    ensures { IfOk result (λ begins. AreStarts (kin_of nodes.now) begins.items) }
{
    let mut begins = Vec::with_capacity(alloc, nodes.len() + 1)?;
    let mut sum = 0;
    for s in 0..nodes.len() {
        begins.push_reserved(sum);
        sum += count_others(members, children, NodeNo::new(s as u16)) as u32;
    }
    begins.push_reserved(sum);
    Ok(begins)
}

/// To how many other nodes a node is related.
fn count_others(members: &Groups, children: &Groups, s: NodeNo) -> usize
    requires both { length children.now ≡ length members.now }
    requires node { s < length members.now }
    ensures { result ≡ kin_below (record { blocks = members.now; heads = children.now }) s (length members.now) - 1 }
{
    // It lies in its own block.
    members.of(members.key(s)).len() - 1 + count_upper(children, s) + children.of(s.get()).len()
}

/// How many nodes before `t` are related to `s`, itself among them where it is one.
fn count_before(members: &Groups, children: &Groups, s: NodeNo, t: NodeNo) -> usize
    requires both { length children.now ≡ length members.now }
    requires source { s < length members.now }
    requires target { t < length members.now }
    ensures { result ≡ kin_below (record { blocks = members.now; heads = children.now }) s t }
{
    members.before(members.key(s), t) + upper_before(children, s, t) + children.before(s.get(), t)
}

/// One, where a node has a head in another block that is not its child; else none.
fn count_upper(children: &Groups, s: NodeNo) -> usize
    requires { s < length children.now }
    ensures { result ≡ count_below (is_upper children.now s) (length children.now) }
{
    match upper(children, s) {
        Some(_) => 1,
        None => 0,
    }
}

/// One, where that head is before `t`; else none.
fn upper_before(children: &Groups, s: NodeNo, t: NodeNo) -> usize
    requires source { s < length children.now }
    requires target { t < length children.now }
    ensures { result ≡ count_below (is_upper children.now s) t }
{
    match upper(children, s) {
        Some(head) => one_if_below(head, t),
        None => 0,
    }
}

/// One, where a node is before another one; else none.
fn one_if_below(a: NodeNo, b: NodeNo) -> usize
    ensures { result ≡ (if nat_lt a b then 1 else 0) }
{
    one_if_less(a.get(), b.get())
}

fn one_if_less(a: u16, b: u16) -> usize
    ensures { result ≡ (if nat_lt a b then 1 else 0) }
{
    if a < b {
        return 1;
    }
    0
}

/// That head; as many as there are nodes, where there is none.
fn upper_number(children: &Groups, s: NodeNo) -> u16
    requires { s < length children.now }
    ensures { IsUpperNumber children.now s result }
{
    match upper(children, s) {
        Some(head) => head.get(),
        None => children.len() as u16,
    }
}

/// The head of a node that lies in another block, unless it is a child of the node.
fn upper(children: &Groups, s: NodeNo) -> Option<NodeNo>
    requires { s < length children.now }
    ensures { IsUpper children.now s result }
{
    let head = NodeNo::new(children.key(s));
    if head.get() as usize >= children.len() || children.key(head) == s.get() {
        return None;
    }
    Some(head)
}
