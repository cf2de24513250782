//! The table of colors: by the tag of the row of a source for a destination.

ghost use Rattle.std.specs.Prelude.{◌≡◌};
ghost use Rattle.order_repair.specs.ColorTable.{beside_color, blue_where, closing_color, node_color, plain_color, red_where};

use crate::order_tests::OrderTests;
use mrt_graph::{Color, Tag};

/// The color where a node of their block has failed.
pub fn node_color(tag: Tag, x: &OrderTests) -> Color
    ensures { result ≡ node_color tag x.now }
{
    match tag {
        Tag::Head => red_where(x.source < x.from),
        Tag::Top => red_where(x.from < x.to),
        Tag::Below => red_where(x.source < x.from && x.from < x.to),
        Tag::Above => blue_where(x.to < x.from && x.from < x.source),
        Tag::Unordered => beside_color(x, x.to < x.from),
        Tag::Sole | Tag::Carried => Color::Blue,
    }
}

/// The color where a plain link of their block has failed.
pub fn plain_color(tag: Tag, x: &OrderTests) -> Color
    ensures { result ≡ plain_color tag x.now }
{
    match tag {
        Tag::Head => red_where(x.source <= x.from),
        Tag::Top => red_where(x.onto <= x.to),
        Tag::Below => red_where(x.source <= x.from && x.onto <= x.to),
        Tag::Above => blue_where(x.to <= x.from && x.onto <= x.source),
        Tag::Unordered => beside_color(x, x.to <= x.from),
        Tag::Sole | Tag::Carried => Color::Blue,
    }
}

/// The color where the closing link of their block has failed.
pub fn closing_color(tag: Tag) -> Color
    ensures { result ≡ closing_color tag }
{
    match tag {
        Tag::Head | Tag::Above => Color::Red,
        Tag::Top | Tag::Below | Tag::Unordered => Color::Blue,
        Tag::Sole | Tag::Carried => Color::Blue,
    }
}

/// The color for a pair with no path between them, by whether what has failed comes after the destination.
fn beside_color(x: &OrderTests, later: bool) -> Color
    ensures { result ≡ beside_color x.now later }
{
    if x.under {
        return Color::Red;
    }
    if x.over {
        return Color::Blue;
    }
    blue_where(later)
}

/// Red where this holds, else blue.
fn red_where(holds: bool) -> Color
    ensures { result ≡ red_where holds }
{
    if holds { Color::Red } else { Color::Blue }
}

/// Blue where this holds, else red.
fn blue_where(holds: bool) -> Color
    ensures { result ≡ blue_where holds }
{
    if holds { Color::Blue } else { Color::Red }
}
