//! The color that goes round a failure.

ghost use Rattle.std.specs.Prelude.{◌≡◌, ◌≢◌, ◌<◌, ℕ, length};
ghost use Rattle.mrt_graph.specs.{declared.cert.CertFile.CertFile, declared.cert.Role.TheVariants.Sole, Alternate.UsesOn, Certificate.row_of, Reaches.Reaches};
ghost use Rattle.link_direction.specs.Directions.{Directions};
ghost use Rattle.block_spf.specs.HasDirections.{HasDirections};
ghost use Rattle.mrt_rows.specs.{CertOf.IsCertOf, DirectedFrom.IsDirectedFrom};
ghost use Rattle.order_repair.specs.Source.{AreHops};
ghost use Rattle.order_repair.specs.steps.Source.{AreHopsIn, IsSourceIn};
ghost use Rattle.order_repair.specs.OrderChoice.{IsOrderChoice, LinkLine};
ghost use Rattle.order_repair.specs.{ColorTable.node_color, ColorTable.plain_color, OrderChoice.AreLinkTests, OrderChoice.AreNodeTests, OrderChoice.ByTests};
ghost use Rattle.order_repair.specs.Failed.{IsBetween, IsWithin};
ghost use Rattle.order_repair.specs.steps.Tagging.{IsPair};

use crate::arrow::{Arrow, arrow_of};
use crate::color_table::{closing_color, node_color, plain_color};
use crate::order_tests::{link_tests, node_tests, numbers};
use crate::pair::Pair;
use crate::source_view::SourceView;
use crate::tagging::tag_for;
use block_spf::Reach;
use mrt_graph::{Color, Directed, Element, Graph, LinkNo, NodeNo, Role, Tag};

/// The color of `source` for `to` where an element of their common block has failed: a node of it other than the two, its
/// head included, or a link of it. The block has more than one link, and `up` and `down` are the hops of `source`. Where
/// something else has failed, there is no such color, and the answer says nothing.
///
/// For callers of these crates (docs/LIBRARY.md) and tests; `order` goes through each block's nodes and links.
///
/// The order numbers and the hops of the source alone tell it; no walk is followed. It takes the same time always, and no
/// memory.
pub fn order_choice(
    g: &Graph,
    d: &Directed,
    up: &Reach,
    down: &Reach,
    source: NodeNo,
    to: NodeNo,
    failed: Element,
) -> Color
    requires directed { HasDirections g.now d.now }
    requires source { source < length g.now.ids }
    requires to { to < length g.now.ids }
    requires one_up_each { length up.now ≡ length g.now.ids }
    requires one_down_each { length down.now ≡ length g.now.ids }
    requires failed { IsWithin g.now failed }
    ensures choice { (root : ℕ) (w : Directions) → AreHops g.now d.now root w source up.now down.now
        → IsBetween g.now w source to failed → IsOrderChoice g.now root w source to failed result }
    // By the rows of the graph's certificate the walk of this color reaches its end, and does not use what has failed, where
    // that lies between the two.
    ensures arrives { (root : ℕ) (w : Directions) (file : CertFile)
        → AreHops g.now d.now root w source up.now down.now
        → IsDirectedFrom g.now root d.now → IsCertOf g.now root file → IsBetween g.now w source to failed
        → Reaches g.now.links (length g.now.ids) (row_of file.cert) result source to }
    ensures round { (root : ℕ) (w : Directions) (file : CertFile)
        → AreHops g.now d.now root w source up.now down.now
        → IsDirectedFrom g.now root d.now → IsCertOf g.now root file → IsBetween g.now w source to failed
        → ¬ UsesOn g.now.links (length g.now.ids) (row_of file.cert) source to failed result }
{
    // what each graph keeps is told by reading it
    let _count = g.node_count();
    let view = SourceView {
        graph: g,
        directed: d,
        up,
        down,
    };
    match tag_for(&view, source, to) {
        Some(tag) => color_for(&view, &Pair { source, to, tag }, failed),
        None => Color::Blue,
    }
}

/// The color for a pair where an element of their block has failed.
pub fn color_for(view: &SourceView, pair: &Pair, failed: Element) -> Color
    requires source { IsSourceIn view.now pair.now.source }
    requires to { pair.now.to < length view.now.graph.now.ids }
    requires failed { IsWithin view.now.graph.now failed }
    ensures { (root : ℕ) (w : Directions) (k h : ℕ) → AreHopsIn view.now root w pair.now.source
        → IsPair view.now.graph.now root w pair.now.source pair.now.to pair.now.tag k h
        → IsBetween view.now.graph.now w pair.now.source pair.now.to failed
        → IsOrderChoice view.now.graph.now root w pair.now.source pair.now.to failed result }
{
    match failed {
        Element::Node(failed) => color_for_node(view, pair, failed),
        Element::Link(failed) => link_color(view, pair, failed),
    }
}

/// The color for a pair where a node of their block has failed.
fn color_for_node(view: &SourceView, pair: &Pair, failed: NodeNo) -> Color
    requires source { IsSourceIn view.now pair.now.source }
    requires to { pair.now.to < length view.now.graph.now.ids }
    requires failed { failed < length view.now.graph.now.ids }
    ensures { (root : ℕ) (w : Directions) → AreHopsIn view.now root w pair.now.source
        → ByTests (AreNodeTests view.now.graph.now w pair.now.source pair.now.to failed) (node_color pair.now.tag) result }
{
    match pair.tag {
        Tag::Unordered => node_color(pair.tag, &node_tests(view, pair, failed)),
        _ => {
            let both = Arrow {
                from: failed,
                to: failed,
            };
            node_color(pair.tag, &numbers(view, pair, both))
        }
    }
}

/// The color for a pair where a plain link of their block has failed.
fn color_for_plain(view: &SourceView, pair: &Pair, failed: Arrow) -> Color
    requires source { IsSourceIn view.now pair.now.source }
    requires to { pair.now.to < length view.now.graph.now.ids }
    requires from { failed.from < length view.now.graph.now.ids }
    requires onto { failed.to < length view.now.graph.now.ids }
    ensures { (root : ℕ) (w : Directions) → AreHopsIn view.now root w pair.now.source
        → ByTests (AreLinkTests view.now.graph.now w pair.now.source pair.now.to failed.from failed.to) (plain_color pair.now.tag) result }
{
    match pair.tag {
        Tag::Unordered => plain_color(pair.tag, &link_tests(view, pair, failed)),
        _ => plain_color(pair.tag, &numbers(view, pair, failed)),
    }
}

/// The color for a pair where a link of their block has failed.
fn link_color(view: &SourceView, pair: &Pair, failed: LinkNo) -> Color
    requires source { IsSourceIn view.now pair.now.source }
    requires to { pair.now.to < length view.now.graph.now.ids }
    requires failed { failed < length view.now.graph.now.links }
    ensures { (root : ℕ) (w : Directions) → AreHopsIn view.now root w pair.now.source
        → w.role failed ≢ Sole → LinkLine pair.now.tag view.now.graph.now w pair.now.source pair.now.to failed result }
{
    let mark = view.directed.mark(failed);
    match mark.role {
        Role::Closing => closing_color(pair.tag),
        _ => {
            let arrow = arrow_of(view.graph.link(failed), mark.way);
            color_for_plain(view, pair, arrow)
        }
    }
}
