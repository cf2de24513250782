//! The rows that follow from those of related nodes.

ghost use Rattle.std.specs.Prelude.{◌≡◌, ◌≢◌, ◌<◌, ◌≤◌, [], Some, length};
ghost use Rattle.std.specs.{List.AllByRecursion, Option.option_map};
ghost use Rattle.mrt_graph.specs.{Certificate.IsCertNode, Certificate.certificate_of, Kin.kin_of};
ghost use Rattle.mrt_graph.specs.FoldedRows.{IsUnfoldable};
ghost use Rattle.mrt_graph.specs.steps.FoldedRows.{unfolded_row, way_of};
ghost use Rattle.mrt_graph.specs.RelatedPairs.{place_of_near};

use crate::cert::{CertNode, Row};
use crate::numbers::NodeNo;
use crate::relatives::Relatives;

/// The row of `s` for `t`, where those of related nodes are `near`.
///
/// It takes as many steps as nodes lie between in the chain of heads of `t`.
#[inline(always)]
pub fn unfolded_row(
    relatives: &Relatives,
    nodes: &[CertNode],
    near: &[Row],
    s: NodeNo,
    t: NodeNo,
) -> Row
    requires rows { IsUnfoldable nodes.now near.now }
    requires index { relatives.now ≡ kin_of nodes.now }
    requires source { s < length nodes.now }
    requires target { t < length nodes.now }
    requires different { s ≢ t }
    ensures { result ≡ unfolded_row (certificate_of nodes.now [] []) near.now s t }
{
    let row = near[near_place(relatives, nodes, near, s, t)];
    if relatives.are_related(s, t) {
        return row;
    }
    row.carried()
}

/// The place of the row whose links `s` has for `t`. A number comes back in a register, as a row would not, so this alone is
/// called where rows are read.
#[inline(never)]
fn near_place(
    relatives: &Relatives,
    nodes: &[CertNode],
    _near: &[Row],
    s: NodeNo,
    t: NodeNo,
) -> usize
    requires rows { IsUnfoldable nodes.now _near.now }
    requires index { relatives.now ≡ kin_of nodes.now }
    requires source { s < length nodes.now }
    requires target { t < length nodes.now }
    requires different { s ≢ t }
    ensures place { let c = certificate_of nodes.now [] [] in option_map (place_of_near c s) (way_of c s t) ≡ Some result }
    ensures within { result < length _near.now }
{
    relatives.place(s, waypoint(relatives, nodes, s, t))
}

/// The node for which `s` has the links that it has for `t`.
fn waypoint(relatives: &Relatives, nodes: &[CertNode], s: NodeNo, t: NodeNo) -> NodeNo
    requires few { length nodes.now ≤ 65535 }
    requires kept { AllByRecursion (IsCertNode (length nodes.now)) nodes.now }
    requires index { relatives.now ≡ kin_of nodes.now }
    requires source { s < length nodes.now }
    requires target { t < length nodes.now }
    ensures { way_of (certificate_of nodes.now [] []) s t ≡ Some result }
{
    let mut by = t;
    for _ in 0..nodes.len() + 1 {
        if relatives.are_related(s, by) {
            return by;
        }
        let head = nodes[by.get() as usize].head;
        if head == by {
            return nodes[s.get() as usize].head;
        }
        by = head;
    }
    nodes[s.get() as usize].head
}
