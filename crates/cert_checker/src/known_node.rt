//! A node with what the certificate says of it, read once for many rows.

ghost use Rattle.std.specs.Prelude.{◌≡◌, ◌≢◌, ◌<◌, Some, length};
ghost use Rattle.cert_checker.specs.steps.KnownNode.{IsKnown};
ghost use Rattle.mrt_graph.specs.{CertFields.tagged, Certificate.IsCertRow, Certificate.row_of};

use crate::row_facts::number_of;
use mrt_graph::{Cert, CertNode, NodeNo, NodeRows, Row, Tag};

/// A node's number, the certificate's words on it, and its rows.
#[derive(Drop)]
pub(crate) struct KnownNode<'a> {
    pub number: NodeNo,
    pub words: CertNode,
    pub rows: NodeRows<'a>,
}

/// What is known of the node of this number.
pub(crate) fn known_node(c: &Cert, number: NodeNo) -> KnownNode<'_>
    requires { number < length c.now.nodes }
    ensures known { IsKnown c.now result }
    ensures number { result.number ≡ number }
{
    KnownNode {
        number,
        words: c.node(number),
        rows: c.rows_of(number),
    }
}

/// The row of `s` for `t`.
#[inline(always)]
pub(crate) fn row_for(_c: &Cert, s: &KnownNode, t: NodeNo) -> Row
    requires source { IsKnown _c.now s.now }
    requires target { t < length _c.now.nodes }
    requires different { s.now.number ≢ t }
    ensures value { row_of _c.now s.now.number t ≡ Some result }
    ensures within { IsCertRow (length _c.now.links) result }
{
    s.rows.row(t)
}

/// Whether `v` has a row for `t`, and the row has this tag.
#[inline(always)]
pub(crate) fn has_tag(c: &Cert, v: &KnownNode, t: NodeNo, tag: Tag) -> bool
    requires from { IsKnown c.now v.now }
    requires to { t < length c.now.nodes }
    ensures { result ≡ tagged c.now v.now.number t tag }
{
    if v.number == t {
        return false;
    }
    number_of(row_for(c, v, t).tag) == number_of(tag)
}
