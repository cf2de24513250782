//! Rules seven to thirteen, in one pass over the rows.

ghost use Rattle.std.specs.Prelude.{◌≡◌, ◌<◌, ◌+◌, ◌++◌, Contains, ℕ, List, IfSome, Some, length, slice_get};
ghost use Rattle.std.specs.{List.All, Option.option_map, Option.option_to_list};
ghost use Rattle.cert_checker.specs.steps.KnownNode.{AreHops, IsKnown};
ghost use Rattle.cert_checker.specs.steps.RowFaults.{AndSome, Before, IsAfter, KeptRows, first_of, is_before, row_test, targets_of};
ghost use Rattle.mrt_graph.specs.{CertFields.head_of, Foldable.IsFoldable, HeadsAndBlocks.HeadsHold, Kin.kin_of, SameGraph.SameCounts};

use crate::fault::Fault;
use crate::hops::{Hops, turn_to};
use crate::known_node::{KnownNode, known_node, row_for};
use crate::row_facts::number_of;
use crate::row_rules::keeps_rule;
use mrt_graph::{Cert, Graph, NodeNo, Relatives};

/// What is kept of the rows that were read: their first fault, if there is one, and the hops that serve the next row.
#[derive(Drop)]
struct Reading<'a> {
    kept: Option<Fault>,
    hops: Hops<'a>,
}

/// The first rule on rows that fails, and its first place.
///
/// Where the rows of related nodes alone are held, the others keep their rule, and are not read.
///
/// Each row meets the rule of its tag alone, so one pass keeps the least rule that has failed, with the place where it
/// failed first. The fourteenth rule follows from rules 1, 3 and 4 and those of the tags, so no row is asked for it.
pub(crate) fn first_row_fault(g: &Graph, c: &Cert, root: NodeNo) -> Option<Fault>
    requires counts { SameCounts g.now c.now }
    requires heads { HeadsHold c.now root }
    requires root { root < length c.now.nodes }
    ensures { KeptRows g.now root c.now (Before c.now (length c.now.nodes)) result }
{
    let mut kept = None;
    for s in 0..c.node_count() {
        kept = judge_rows_of(g, c, root, &known_node(c, NodeNo::new(s)), kept);
    }
    kept
}

fn judge_rows_of(
    g: &Graph,
    c: &Cert,
    root: NodeNo,
    s: &KnownNode,
    before: Option<Fault>,
) -> Option<Fault>
    requires counts { SameCounts g.now c.now }
    requires root { root < length c.now.nodes }
    requires top { head_of c.now root ≡ Some root }
    requires source { IsKnown c.now s.now }
    requires before { KeptRows g.now root c.now (Before c.now s.now.number) before }
    ensures { KeptRows g.now root c.now (Before c.now (s.now.number + 1)) result }
{
    match c.relatives() {
        None => judge_some(g, c, root, s, None, before),
        Some(relatives) => judge_related_of(g, c, root, relatives, s, before),
    }
}

/// Goes on with the rows of `s` for the nodes that are related to it.
fn judge_related_of(
    g: &Graph,
    c: &Cert,
    root: NodeNo,
    relatives: &Relatives,
    s: &KnownNode,
    before: Option<Fault>,
) -> Option<Fault>
    requires counts { SameCounts g.now c.now }
    requires foldable { IsFoldable c.now }
    requires root { root < length c.now.nodes }
    requires top { head_of c.now root ≡ Some root }
    requires index { relatives.now ≡ kin_of c.now.nodes }
    requires source { IsKnown c.now s.now }
    requires before { KeptRows g.now root c.now (Before c.now s.now.number) before }
    ensures { KeptRows g.now root c.now (Before c.now (s.now.number + 1)) result }
{
    let kept = judge_some(g, c, root, s, Some(relatives.members(s.number)), before);
    let kept = judge_upper(g, c, root, s, relatives.upper(s.number), kept);
    judge_some(g, c, root, s, Some(relatives.children(s.number)), kept)
}

/// Goes on with the row of `s` for a head in another block, where there is one.
fn judge_upper(
    g: &Graph,
    c: &Cert,
    root: NodeNo,
    s: &KnownNode,
    upper: Option<NodeNo>,
    before: Option<Fault>,
) -> Option<Fault>
    requires counts { SameCounts g.now c.now }
    requires source { IsKnown c.now s.now }
    requires target { IfSome upper (λ head. head < length c.now.nodes) }
    ensures { (listed : List ℕ) → KeptRows g.now root c.now (AndSome c.now s.now.number (Contains listed)) before
        → KeptRows g.now root c.now (AndSome c.now s.now.number (Contains (listed ++ option_to_list upper))) result }
{
    match upper {
        None => before,
        Some(head) => judge_some(g, c, root, s, Some(&[head]), before),
    }
}

/// Goes on with the rows of `s` for these nodes; for all nodes, where there is no list.
fn judge_some(
    g: &Graph,
    c: &Cert,
    root: NodeNo,
    s: &KnownNode,
    targets: Option<&[NodeNo]>,
    before: Option<Fault>,
) -> Option<Fault>
    requires counts { SameCounts g.now c.now }
    requires source { IsKnown c.now s.now }
    requires targets { IfSome targets (λ told. All (λ t. t < length c.now.nodes) told.now) }
    ensures { (listed : List ℕ) → KeptRows g.now root c.now (AndSome c.now s.now.number (Contains listed)) before
        → KeptRows g.now root c.now (AndSome c.now s.now.number
        (Contains (listed ++ targets_of (length c.now.nodes) (option_map (λ told. told.now) targets.entry)))) result }
{
    let nodes = c.node_count();
    let mut last = Reading {
        kept: before,
        hops: Hops {
            blue: None,
            red: None,
        },
    };
    for k in 0..target_count(nodes, targets) {
        judge_row(g, c, root, s, target(nodes, targets, k), &mut last);
    }
    last.kept
}

/// How many nodes there are to judge rows for: those listed, or all.
fn target_count(nodes: u16, targets: Option<&[NodeNo]>) -> usize
    ensures { result ≡ length (targets_of nodes (option_map (λ told. told.now) targets.entry)) }
{
    match targets {
        None => usize::from(nodes),
        Some(told) => told.len(),
    }
}

/// The node in this place among them.
fn target(nodes: u16, targets: Option<&[NodeNo]>, place: usize) -> NodeNo
    requires place { place < length (targets_of nodes (option_map (λ told. told.now) targets)) }
    requires targets { IfSome targets (λ told. All (λ t. t < nodes) told.now) }
    ensures value { slice_get (targets_of nodes (option_map (λ told. told.now) targets.entry)) place ≡ Some result }
    ensures within { result < nodes }
{
    match targets {
        None => NodeNo::new(place as u16),
        Some(told) => told[place],
    }
}

/// Goes on with the row of `s` for `t`.
fn judge_row<'a>(
    g: &Graph,
    c: &'a Cert,
    root: NodeNo,
    s: &KnownNode,
    t: NodeNo,
    last: &mut Reading<'a>,
)
    requires counts { SameCounts g.now c.now }
    requires source { IsKnown c.now s.now }
    requires target { t < length c.now.nodes }
    requires last { AreHops g.now c.now s.now.number last.old.hops }
    ensures kept { IsAfter (row_test g.now root c.now) s.now.number t last.old.kept last.new.kept }
    ensures hops { AreHops g.now c.now s.now.number last.new.hops }
{
    if s.number == t {
        return;
    }
    let row = row_for(c, s, t);
    turn_to(g, c, s.number, &mut last.hops.blue, row.blue);
    turn_to(g, c, s.number, &mut last.hops.red, row.red);
    if keeps_rule(c, root, s, t, &row, &last.hops) {
        return;
    }
    let fault = Fault {
        rule: 7 + number_of(row.tag),
        a: s.number.get(),
        b: t.get(),
    };
    keep_first(&mut last.kept, fault);
}

/// Keeps the first of a fault and of what is kept. It is called, so that what is kept takes no room where rows are read.
#[inline(never)]
fn keep_first(kept: &mut Option<Fault>, fault: Fault)
    ensures { kept.new ≡ Some (first_of kept.old fault) }
{
    *kept = Some(first_of(*kept, fault));
}

/// The first of a fault and of what is kept.
fn first_of(kept: Option<Fault>, fault: Fault) -> Fault
    ensures { result ≡ first_of kept fault }
{
    match kept {
        None => fault,
        Some(earlier) => if is_before(&fault, &earlier) {
            fault
        } else {
            earlier
        }
    }
}

fn is_before(fault: &Fault, other: &Fault) -> bool
    ensures { result ≡ is_before fault.now other.now }
{
    if fault.rule < other.rule {
        return true;
    }
    fault.rule == other.rule && (fault.a < other.a || fault.a == other.a && fault.b < other.b)
}
