//! Rules seven to thirteen, at one row: what the row keeps, by its tag.

ghost use Rattle.std.specs.Prelude.{◌≡◌, ◌<◌, IfSome, false, length};
ghost use Rattle.std.specs.Option.{option_map, option_map_or};
ghost use Rattle.cert_checker.specs.{steps.KnownNode.IsKnown, steps.KnownNode.IsRowAt, steps.KnownNode.rule_by};
ghost use Rattle.mrt_graph.specs.{declared.cert.Tag.TheVariants.Carried, BothThere.both, Certificate.row_of, Tags.same_tag, steps.RowRules.carried_row, steps.RowRules.near_row, RowRules.same_links};

use crate::hops::{Hop, Hops};
use crate::known_node::{KnownNode, row_for};
use crate::near_rows::keeps_near_rule;
use crate::row_facts::number_of;
use mrt_graph::{Cert, NodeNo, Row, Tag, are_unrelated, carrier};

/// Whether the row of `s` for `t` keeps what its tag asks. Its links have these hops.
pub(crate) fn keeps_rule(
    c: &Cert,
    root: NodeNo,
    s: &KnownNode,
    t: NodeNo,
    row: &Row,
    hops: &Hops,
) -> bool
    requires row { IsRowAt c.now s.now t row.now }
    requires blue { IfSome hops.now.blue (λ hop. IsKnown c.now hop.to) }
    requires red { IfSome hops.now.red (λ hop. IsKnown c.now hop.to) }
    ensures { result ≡ rule_by row.now.tag c.now root s.now.number t row.now
        (option_map (λ hop. hop.to.number) hops.now.blue) (option_map (λ hop. hop.to.number) hops.now.red) }
{
    if is_carried(row.tag) {
        return carried(c, root, s, t, row);
    }
    keeps_hop_rule(c, s, t, row, &hops.blue, &hops.red)
}

/// Whether a row that is not carried, with these hops, keeps what its tag asks.
fn keeps_hop_rule(
    c: &Cert,
    s: &KnownNode,
    t: NodeNo,
    row: &Row,
    blue: &Option<Hop>,
    red: &Option<Hop>,
) -> bool
    requires row { IsRowAt c.now s.now t row.now }
    requires blue { IfSome blue.now (λ hop. IsKnown c.now hop.to) }
    requires red { IfSome red.now (λ hop. IsKnown c.now hop.to) }
    ensures { result ≡ both (near_row row.now.tag c.now s.now.number t row.now)
        (option_map (λ hop. hop.to.number) blue.now) (option_map (λ hop. hop.to.number) red.now) }
{
    match blue {
        None => false,
        Some(blue) => match red {
            None => false,
            Some(red) => keeps_near_rule(c, s, t, row, &blue.to, &red.to),
        }
    }
}

fn is_carried(tag: Tag) -> bool
    ensures { result ≡ same_tag tag Carried }
{
    number_of(tag) == number_of(Tag::Carried)
}

/// Whether a row that is carried keeps what its tag asks.
fn carried(c: &Cert, root: NodeNo, s: &KnownNode, t: NodeNo, row: &Row) -> bool
    requires source { IsKnown c.now s.now }
    requires target { t < length c.now.nodes }
    ensures { result ≡ carried_row c.now root s.now.number t row.now }
{
    let nodes = c.nodes();
    are_unrelated(nodes, s.number, t) && has_links_for(c, s, carrier(nodes, root, s.number, t), row)
}

/// Whether the row has the links of the row of `s` for `w`.
fn has_links_for(c: &Cert, s: &KnownNode, w: NodeNo, row: &Row) -> bool
    requires source { IsKnown c.now s.now }
    requires carrier { w < length c.now.nodes }
    ensures { result ≡ option_map_or (same_links row.now) (row_of c.now s.now.number w) false }
{
    if s.number == w {
        return false;
    }
    let other = row_for(c, s, w);
    row.blue == other.blue && row.red == other.red
}
