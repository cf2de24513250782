//! The rules on rows between related nodes, by the nodes to which a row's two links lead.

ghost use Rattle.std.specs.Prelude.{◌≡◌, ◌<◌, length};
ghost use Rattle.cert_checker.specs.{steps.KnownNode.IsKnown, steps.KnownNode.IsNearRowAt};
ghost use Rattle.mrt_graph.specs.steps.RowRules.{above_row, below_row, head_row, near_row, sole_row, top_row, unordered_row};
ghost use Rattle.mrt_graph.specs.RowRules.{closing_to_head, higher_beside, higher_tagged, lower_beside, lower_tagged, plain_to_head};

use crate::known_node::{KnownNode, has_tag};
use crate::row_facts::{is_closing_link, is_plain_link, is_sole_link};
use mrt_graph::{Cert, LinkNo, NodeNo, Row, Tag};

/// Whether the links of a row of `s` for `t` lead where its tag asks, to `blue` and `red`.
pub(crate) fn keeps_near_rule(
    c: &Cert,
    s: &KnownNode,
    t: NodeNo,
    row: &Row,
    blue: &KnownNode,
    red: &KnownNode,
) -> bool
    requires { IsNearRowAt c.now s.now t row.now blue.now red.now }
    ensures { result ≡ near_row row.now.tag c.now s.now.number t row.now blue.now.number red.now.number }
{
    match row.tag {
        Tag::Sole => sole(c, t, row, blue),
        Tag::Head => head(c, s, t, row, blue, red),
        Tag::Top => top(c, s, t, row, blue, red),
        Tag::Below => below(c, s, t, row, blue, red),
        Tag::Above => above(c, s, t, row, blue, red),
        Tag::Unordered => unordered(c, s, t, row, blue, red),
        Tag::Carried => false,
    }
}

fn sole(c: &Cert, t: NodeNo, row: &Row, blue: &KnownNode) -> bool
    requires { row.now.blue < length c.now.links }
    ensures { result ≡ sole_row c.now t row.now blue.now.number }
{
    row.blue == row.red && is_sole_link(c, row.blue) && blue.number == t
}

fn head(c: &Cert, s: &KnownNode, t: NodeNo, row: &Row, blue: &KnownNode, red: &KnownNode) -> bool
    requires { IsNearRowAt c.now s.now t row.now blue.now red.now }
    ensures { result ≡ head_row c.now s.now.number t row.now blue.now.number red.now.number }
{
    s.words.head == t
        && (is_higher_beside(c, s, blue) || is_closing_link(c, row.blue) && blue.number == t)
        && (is_lower_beside(c, s, red) || is_plain_link(c, row.red) && red.number == t)
}

fn top(c: &Cert, s: &KnownNode, t: NodeNo, row: &Row, blue: &KnownNode, red: &KnownNode) -> bool
    requires { IsNearRowAt c.now s.now t row.now blue.now red.now }
    ensures { result ≡ top_row c.now s.now.number t row.now blue.now.number red.now.number }
{
    c.node(t).head == s.number
        && is_plain_link(c, row.blue)
        && (blue.number == t || has_tag(c, blue, t, Tag::Below))
        && is_closing_link(c, row.red)
        && (red.number == t || has_tag(c, red, t, Tag::Above))
}

fn below(c: &Cert, s: &KnownNode, t: NodeNo, row: &Row, blue: &KnownNode, red: &KnownNode) -> bool
    requires { IsNearRowAt c.now s.now t row.now blue.now red.now }
    ensures { result ≡ below_row c.now s.now.number t row.now blue.now.number red.now.number }
{
    s.words.block == c.node(t).block
        && s.words.order < c.node(t).order
        && (blue.number == t || is_higher_tagged(c, s, t, Tag::Below, blue))
        && (is_lower_tagged(c, s, t, Tag::Below, red) || is_plain_home(c, row.red, s, red))
}

fn above(c: &Cert, s: &KnownNode, t: NodeNo, row: &Row, blue: &KnownNode, red: &KnownNode) -> bool
    requires { IsNearRowAt c.now s.now t row.now blue.now red.now }
    ensures { result ≡ above_row c.now s.now.number t row.now blue.now.number red.now.number }
{
    s.words.block == c.node(t).block
        && c.node(t).order < s.words.order
        && (is_higher_tagged(c, s, t, Tag::Above, blue) || is_closing_home(c, row.blue, s, blue))
        && (red.number == t || is_lower_tagged(c, s, t, Tag::Above, red))
}

fn unordered(
    c: &Cert,
    s: &KnownNode,
    t: NodeNo,
    row: &Row,
    blue: &KnownNode,
    red: &KnownNode,
) -> bool
    requires { IsNearRowAt c.now s.now t row.now blue.now red.now }
    ensures { result ≡ unordered_row c.now s.now.number t row.now blue.now.number red.now.number }
{
    s.words.block == c.node(t).block
        && (is_lower_tagged(c, s, t, Tag::Unordered, blue)
            || is_lower_tagged(c, s, t, Tag::Below, blue)
            || is_plain_home(c, row.blue, s, blue))
        && (is_higher_tagged(c, s, t, Tag::Unordered, red)
            || is_higher_tagged(c, s, t, Tag::Above, red))
}

/// Whether `v` is in the block of `s`, with a greater order.
fn is_higher_beside(c: &Cert, s: &KnownNode, v: &KnownNode) -> bool
    requires source { IsKnown c.now s.now }
    requires next { IsKnown c.now v.now }
    ensures { result ≡ higher_beside c.now s.now.number v.now.number }
{
    v.words.block == s.words.block && s.words.order < v.words.order
}

/// Whether `v` is in the block of `s`, with a smaller order.
fn is_lower_beside(c: &Cert, s: &KnownNode, v: &KnownNode) -> bool
    requires source { IsKnown c.now s.now }
    requires next { IsKnown c.now v.now }
    ensures { result ≡ lower_beside c.now s.now.number v.now.number }
{
    v.words.block == s.words.block && v.words.order < s.words.order
}

/// Whether `v` has a greater order than `s`, and its row for `t` has this tag.
#[inline(always)]
fn is_higher_tagged(c: &Cert, s: &KnownNode, t: NodeNo, tag: Tag, v: &KnownNode) -> bool
    requires source { IsKnown c.now s.now }
    requires target { t < length c.now.nodes }
    requires next { IsKnown c.now v.now }
    ensures { result ≡ higher_tagged c.now s.now.number t tag v.now.number }
{
    s.words.order < v.words.order && has_tag(c, v, t, tag)
}

/// Whether `v` has a smaller order than `s`, and its row for `t` has this tag.
#[inline(always)]
fn is_lower_tagged(c: &Cert, s: &KnownNode, t: NodeNo, tag: Tag, v: &KnownNode) -> bool
    requires source { IsKnown c.now s.now }
    requires target { t < length c.now.nodes }
    requires next { IsKnown c.now v.now }
    ensures { result ≡ lower_tagged c.now s.now.number t tag v.now.number }
{
    v.words.order < s.words.order && has_tag(c, v, t, tag)
}

/// Whether the link is plain, and `v` is the head of `s`.
fn is_plain_home(c: &Cert, e: LinkNo, s: &KnownNode, v: &KnownNode) -> bool
    requires link { e < length c.now.links }
    requires source { IsKnown c.now s.now }
    ensures { result ≡ plain_to_head c.now e s.now.number v.now.number }
{
    is_plain_link(c, e) && s.words.head == v.number
}

/// Whether the link is closing, and `v` is the head of `s`.
fn is_closing_home(c: &Cert, e: LinkNo, s: &KnownNode, v: &KnownNode) -> bool
    requires link { e < length c.now.links }
    requires source { IsKnown c.now s.now }
    ensures { result ≡ closing_to_head c.now e s.now.number v.now.number }
{
    is_closing_link(c, e) && s.words.head == v.number
}
