//! What a color is chosen by.

ghost use Rattle.std.specs.Prelude.{◌<◌, ℕ, length};
ghost use Rattle.std.specs.Bool.{Decides};
ghost use Rattle.link_direction.specs.Directions.{Directions};
ghost use Rattle.order_repair.specs.{OrderChoice.AreLinkTests, OrderChoice.AreNodeTests, OrderChoice.AreNumbers, OrderChoice.IsOverLink, OrderChoice.IsUnderLink, OrderChoice.IsUnderNode};
ghost use Rattle.order_repair.specs.steps.Source.{AreHopsIn, IsSourceIn};

use crate::arrow::Arrow;
use crate::pair::Pair;
use crate::reached::is_reached;
use crate::source_view::SourceView;
use mrt_graph::NodeNo;

/// What tells the color of a source for a destination, where a node or a plain link of their block has failed: the order
/// numbers of the two; that of the node, or those of the two nodes of the link, the one that it leads from first; and
/// whether what has failed is under the source, and whether it is over it.
#[derive(Clone, Copy)]
pub struct OrderTests {
    pub source: u16,
    pub to: u16,
    pub from: u16,
    pub onto: u16,
    pub under: bool,
    pub over: bool,
}

/// The order numbers alone, of a pair and of two nodes. They tell the color unless the tag is Unordered, so nothing else is looked
/// up then.
pub fn numbers(view: &SourceView, pair: &Pair, failed: Arrow) -> OrderTests
    requires source { IsSourceIn view.now pair.now.source }
    requires to { pair.now.to < length view.now.graph.now.ids }
    requires from { failed.from < length view.now.graph.now.ids }
    requires onto { failed.to < length view.now.graph.now.ids }
    ensures { (root : ℕ) (w : Directions) → AreHopsIn view.now root w pair.now.source
        → AreNumbers w pair.now.source pair.now.to failed.from failed.to result }
{
    OrderTests {
        source: view.directed.order(pair.source),
        to: view.directed.order(pair.to),
        from: view.directed.order(failed.from),
        onto: view.directed.order(failed.to),
        under: false,
        over: false,
    }
}

/// The tests of a node that failed.
pub fn node_tests(view: &SourceView, pair: &Pair, failed: NodeNo) -> OrderTests
    requires source { IsSourceIn view.now pair.now.source }
    requires to { pair.now.to < length view.now.graph.now.ids }
    requires failed { failed < length view.now.graph.now.ids }
    ensures { (root : ℕ) (w : Directions) → AreHopsIn view.now root w pair.now.source
        → AreNodeTests view.now.graph.now w pair.now.source pair.now.to failed result }
{
    let at = view.directed.order(failed);
    OrderTests {
        source: view.directed.order(pair.source),
        to: view.directed.order(pair.to),
        from: at,
        onto: at,
        under: is_under_node(view, pair, failed),
        over: is_reached(view.graph, view.up, failed),
    }
}

/// The tests of a plain link that failed.
pub fn link_tests(view: &SourceView, pair: &Pair, failed: Arrow) -> OrderTests
    requires source { IsSourceIn view.now pair.now.source }
    requires to { pair.now.to < length view.now.graph.now.ids }
    requires from { failed.from < length view.now.graph.now.ids }
    requires onto { failed.to < length view.now.graph.now.ids }
    ensures { (root : ℕ) (w : Directions) → AreHopsIn view.now root w pair.now.source
        → AreLinkTests view.now.graph.now w pair.now.source pair.now.to failed.from failed.to result }
{
    OrderTests {
        source: view.directed.order(pair.source),
        to: view.directed.order(pair.to),
        from: view.directed.order(failed.from),
        onto: view.directed.order(failed.to),
        under: is_under_link(view, pair, failed.to),
        over: is_over_link(view, pair, failed.from),
    }
}

/// Whether a node is the source's head, or a path leads down to it.
fn is_under_node(view: &SourceView, pair: &Pair, at: NodeNo) -> bool
    requires source { IsSourceIn view.now pair.now.source }
    requires at { at < length view.now.graph.now.ids }
    ensures { (root : ℕ) (w : Directions) → AreHopsIn view.now root w pair.now.source
        → Decides result (IsUnderNode view.now.graph.now w pair.now.source at) }
{
    at == view.directed.place(pair.source).head || is_reached(view.graph, view.down, at)
}

/// Whether the node that a link leads to is the source, or a path leads down to it.
fn is_under_link(view: &SourceView, pair: &Pair, onto: NodeNo) -> bool
    requires source { IsSourceIn view.now pair.now.source }
    requires onto { onto < length view.now.graph.now.ids }
    ensures { (root : ℕ) (w : Directions) → AreHopsIn view.now root w pair.now.source
        → Decides result (IsUnderLink view.now.graph.now w pair.now.source onto) }
{
    onto == pair.source || is_reached(view.graph, view.down, onto)
}

/// Whether the node that a link leads from is the source, or it is of the source's block and a path leads up to it.
fn is_over_link(view: &SourceView, pair: &Pair, from: NodeNo) -> bool
    requires source { IsSourceIn view.now pair.now.source }
    requires from { from < length view.now.graph.now.ids }
    ensures { (root : ℕ) (w : Directions) → AreHopsIn view.now root w pair.now.source
        → Decides result (IsOverLink view.now.graph.now w pair.now.source from) }
{
    if from == pair.source {
        return true;
    }
    view.directed.place(from).block == view.directed.place(pair.source).block
        && is_reached(view.graph, view.up, from)
}
