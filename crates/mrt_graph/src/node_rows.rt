//! The rows of one node, of which what serves for all of them is read once.

ghost use Rattle.std.specs.Prelude.{◌≡◌, ◌≢◌, ◌<◌, ◌-◌, ◌*◌, IfSome, None, Some, length};
ghost use Rattle.std.specs.Option.{option_map};
ghost use Rattle.mrt_graph.specs.steps.BlockPlaces.{AreBlockPlaces};
ghost use Rattle.mrt_graph.specs.Certificate.{row_of};
ghost use Rattle.mrt_graph.specs.steps.NodeRows.{AreHeldRows, ArePlacesOf};

use crate::cert::{Cert, Row, column, first_row};
use crate::numbers::NodeNo;
use crate::relatives::{BlockPlaces, Relatives};
use std::marker::Model;

/// The rows of one node. Each is found in the same time, but for rows of nodes in other blocks where the certificate holds
/// the rows of related nodes alone.
#[derive(Drop)]
pub struct NodeRows<'a> {
    cert: &'a Cert,
    rows: &'a [Row],
    node: NodeNo,
    first: usize,
    places: Option<BlockPlaces<'a>>,
}

impl<'a> Model for NodeRows<'a> {
    ghost use Rattle.mrt_graph.specs.steps.NodeRows.{AreNodeRows};
    ghost use Rattle.mrt_graph.specs.NodeRows.{RowsOfNode};

    ghost Value = { RowsOfNode };

    ghost view = { λ r. record { cert = r.cert.now; node = r.node } };

    ghost invariant = { λ r. AreNodeRows r.cert.now r.rows.now r.node r.first r.places };
}

impl<'a> NodeRows<'a> {
    ghost use Rattle.std.specs.Prelude.{◌≡◌, ◌≢◌, ◌<◌, Some, length};
    ghost use Rattle.std.specs.Option.{option_map};
    ghost use Rattle.mrt_graph.specs.Certificate.{IsCertRow, row_of};
    ghost use Rattle.mrt_graph.specs.steps.NodeRows.{AreHeldRows};

    /// The rows of a node of a certificate that holds these rows.
    pub(crate) fn new(
        cert: &'a Cert,
        rows: &'a [Row],
        relatives: Option<&'a Relatives>,
        node: NodeNo,
    ) -> NodeRows<'a>
        requires held { AreHeldRows cert.now rows.now (option_map (λ relatives. relatives.now) relatives) }
        requires node { node < length cert.now.nodes }
        ensures { result ≡ record { cert = cert.now; node = node } }
    {
        NodeRows {
            cert,
            rows,
            node,
            first: first_row(cert.nodes().len(), node),
            places: places_in(relatives, node),
        }
    }

    /// The row for `t`.
    #[inline(always)]
    pub fn row(&self, t: NodeNo) -> Row
        requires target { t < length self.now.cert.nodes }
        requires different { self.now.node ≢ t }
        ensures value { row_of self.now.cert self.now.node t ≡ Some result }
        ensures within { IsCertRow (length self.now.cert.links) result }
    {
        match &self.places {
            None => row_among(self.cert, self.rows, self.first, self.node, t),
            Some(places) => row_by(self.cert, self.rows, places, t),
        }
    }
}

/// Where the rows of a node for those of its block stand, where there is an index.
fn places_in<'a>(relatives: Option<&'a Relatives>, node: NodeNo) -> Option<BlockPlaces<'a>>
    requires { IfSome relatives (λ relatives. node < length relatives.now.blocks) }
    ensures index { option_map (λ p. p.relatives.now) result ≡ option_map (λ relatives. relatives.now) relatives.entry }
    ensures places { IfSome result (λ p. ArePlacesOf node p) }
{
    match relatives {
        None => None,
        Some(relatives) => Some(relatives.block_places(node)),
    }
}

/// The row of `s` for `t` among all rows, of which those of `s` begin there.
#[inline(always)]
fn row_among(_cert: &Cert, rows: &[Row], first: usize, s: NodeNo, t: NodeNo) -> Row
    requires held { AreHeldRows _cert.now rows.now None }
    requires first { first ≡ s * (length _cert.now.nodes - 1) }
    requires source { s < length _cert.now.nodes }
    requires target { t < length _cert.now.nodes }
    requires different { s ≢ t }
    ensures { row_of _cert.now s t ≡ Some result }
{
    let place = first + column(s, t);
    rows[place]
}

/// The row of the node of these places for `t`.
#[inline(always)]
fn row_by(cert: &Cert, rows: &[Row], places: &BlockPlaces<'_>, t: NodeNo) -> Row
    requires held { AreHeldRows cert.now rows.now (Some places.now.relatives.now) }
    requires places { AreBlockPlaces places.now }
    requires target { t < length cert.now.nodes }
    requires different { places.now.node ≢ t }
    ensures { row_of cert.now places.now.node t ≡ Some result }
{
    match places.place(t) {
        Some(place) => rows[place],
        None => cert.row(places.node, t),
    }
}
