//! The color that repairs a failure.

ghost use Rattle.std.specs.Prelude.{◌≡◌, ◌≢◌, ◌<◌, ◌⊎◌, ◌↔◌, ℕ, IsTrue, Some, None, length};
ghost use Rattle.mrt_graph.specs.{declared.link.Element.Element, Alternate.IsAlternate, Certificate.row_of};
ghost use Rattle.mrt_graph.specs.{Column.ColumnSound, Column.rows_of_column, Separates.IsNeitherEnd, Separates.Separates, Sound.SoundFor};
ghost use Rattle.mrt_graph.specs.AcceptedFor.{IsAcceptedFor};

use crate::color_uses::uses;
use mrt_graph::{Cert, Color, Column, Element, Graph, NodeNo, RowsOf};

/// The color on which `source` sends a packet for `to` after a failure; None where no color goes round it. A failure
/// outside the graph is None as `failed`.
///
/// For callers of these crates (docs/LIBRARY.md) and tests; a fabric calls [`alternate_by`].
///
/// It follows both color walks, so it takes time in proportion to the nodes at worst.
pub fn alternate(
    g: &Graph,
    c: &Cert,
    source: NodeNo,
    to: NodeNo,
    failed: Option<Element>,
) -> Option<Color>
    requires accepted { IsAcceptedFor g.now c.now }
    requires source { source < length g.now.ids }
    requires target { to < length g.now.ids }
    ensures color { IsAlternate g.now.links (length g.now.ids) (row_of c.now) source to failed result }
    // Of two different nodes there is none exactly where an element has failed that is one of them, or separates them.
    ensures none { (x : Element) → failed ≡ Some x → source ≢ to
        → (result ≡ None) ↔ ((¬ IsNeitherEnd x source to) ⊎ Separates g.now.links x source to) }
{
    alternate_by(g, c, source, to, failed)
}

/// The same by the rows of all nodes for `to`, where these are sound.
///
/// For callers of these crates (docs/LIBRARY.md) and tests; a fabric calls [`alternate_by`].
///
/// It follows both color walks, so it takes time in proportion to the nodes at worst, and no memory.
pub fn alternate_on(
    g: &Graph,
    c: &Column,
    source: NodeNo,
    to: NodeNo,
    failed: Option<Element>,
) -> Option<Color>
    requires sound { ColumnSound g.now.links (length g.now.ids) c.now to }
    requires source { source < length g.now.ids }
    ensures color { IsAlternate g.now.links (length g.now.ids) (rows_of_column c.now) source to
        failed result }
    // Of two different nodes there is none exactly where an element has failed that is one of them, or separates them.
    ensures none { (x : Element) → failed ≡ Some x → source ≢ to
        → (result ≡ None) ↔ ((¬ IsNeitherEnd x source to) ⊎ Separates g.now.links x source to) }
{
    alternate_by(g, c, source, to, failed)
}

/// The same by any rows that are sound for `to`.
///
/// It follows both color walks, so it takes time in proportion to the nodes at worst, and no memory.
pub fn alternate_by<R: RowsOf>(
    g: &Graph,
    rows: &R,
    source: NodeNo,
    to: NodeNo,
    failed: Option<Element>,
) -> Option<Color>
    requires sound { (at : ℕ) → at < length g.now.ids → at ≢ to
        → SoundFor g.now.links (length g.now.ids) (R.rows rows.now) at to }
    requires source { source < length g.now.ids }
    ensures color { IsAlternate g.now.links (length g.now.ids) (R.rows rows.now) source to
        failed result }
    // Of two different nodes there is none exactly where an element has failed that is one of them, or separates them.
    ensures none { (x : Element) → failed ≡ Some x → source ≢ to
        → (result ≡ None) ↔ ((¬ IsNeitherEnd x source to) ⊎ Separates g.now.links x source to) }
{
    match failed {
        None => Some(Color::Blue),
        Some(x) => color_round(g, rows, source, to, &x),
    }
}

/// The color on which `source` sends a packet for `to` round an element, by these rows; None where there is none.
fn color_round<R: RowsOf>(
    g: &Graph,
    rows: &R,
    source: NodeNo,
    to: NodeNo,
    x: &Element,
) -> Option<Color>
    requires sound { (at : ℕ) → at < length g.now.ids → at ≢ to
        → SoundFor g.now.links (length g.now.ids) (R.rows rows.now) at to }
    requires source { source < length g.now.ids }
    ensures { IsAlternate g.now.links (length g.now.ids) (R.rows rows.now) source to
        (Some x.now) result }
{
    if !is_between(x, source, to) {
        return None;
    }
    if !uses(g, rows, source, to, x, Color::Blue) {
        return Some(Color::Blue);
    }
    if !uses(g, rows, source, to, x, Color::Red) {
        return Some(Color::Red);
    }
    None
}

/// Whether `x` is a link, or a node other than `s` and `t`.
pub fn is_between(x: &Element, s: NodeNo, t: NodeNo) -> bool
    ensures { IsTrue result ↔ IsNeitherEnd x.now s t }
{
    match x {
        Element::Link(_) => true,
        Element::Node(node) => *node != s && *node != t,
    }
}
