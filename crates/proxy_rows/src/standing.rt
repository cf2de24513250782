//! Where a node stands to the block of two routers.

ghost use Rattle.std.specs.Prelude.{◌≡◌, ◌<◌, List, length};
ghost use Rattle.mrt_graph.specs.{declared.cert.Row.Row};
ghost use Rattle.proxy_rows.specs.{declared.side.Side.TheVariants.Low, declared.side.Side.TheVariants.High};
ghost use Rattle.proxy_rows.specs.Standing.{IsStanding, standing_by};
ghost use Rattle.proxy_rows.specs.steps.LabelledGraph.{AreMarks, with_rows};

use crate::attachment::Attachment;
use crate::ends::is_marked;
use crate::labelled_graph::LabelledGraph;
use crate::marking::is_member;
use mrt_graph::NodeNo;

/// Where a node stands to the block of two routers: it is its head, a member on Low, a member on High, another member, or
/// not in it.
#[derive(Clone, Copy)]
pub enum Standing {
    Head,
    OnLow,
    OnHigh,
    Other,
    Outside,
}

/// Where a node stands, by the marks of both sides.
pub fn stands(
    words: &LabelledGraph,
    at: &Attachment,
    low: &[bool],
    high: &[bool],
    s: NodeNo,
) -> Standing
    requires low_count { s < length low.now }
    requires low { AreMarks words.now at.now Low low.now }
    requires high_count { s < length high.now }
    requires high { AreMarks words.now at.now High high.now }
    requires within { s < length words.now.nodes.now }
    ensures { (rest : List Row) → IsStanding words.now.graph.now.links (with_rows words.now rest) at.now s result }
{
    standing_by(
        s == at.head,
        is_marked(low, s),
        is_marked(high, s),
        is_member(words, at, s),
    )
}

/// The same by the four tests, the first that holds.
fn standing_by(head: bool, low: bool, high: bool, member: bool) -> Standing
    ensures { result ≡ standing_by head low high member }
{
    if head {
        return Standing::Head;
    }
    if low {
        return Standing::OnLow;
    }
    if high {
        return Standing::OnHigh;
    }
    if member {
        return Standing::Other;
    }
    Standing::Outside
}
