//! The tag of the row for a node with which the source has a block of more than one link in common.

ghost use Rattle.std.specs.Prelude.{◌≡◌, ◌<◌, ℕ, length};
ghost use Rattle.link_direction.specs.Directions.{Directions};
ghost use Rattle.order_repair.specs.steps.Source.{AreHopsIn, IsSourceIn};
ghost use Rattle.order_repair.specs.steps.Tagging.{IsTagFor, tag_by};

use crate::source_view::SourceView;
use block_spf::Hop;
use mrt_graph::{NodeNo, Relation, Tag, relation_of};

/// The tag of the row of `s` for `t`, where they have a block of more than one link in common; `None` where they have none.
pub fn tag_for(view: &SourceView, s: NodeNo, t: NodeNo) -> Option<Tag>
    requires source { IsSourceIn view.now s }
    requires to { t < length view.now.graph.now.ids }
    ensures { (root : ℕ) (w : Directions) → AreHopsIn view.now root w s
        → IsTagFor view.now.graph.now root w s t result }
{
    if s == t {
        return None;
    }
    let here = view.directed.place(s);
    let there = view.directed.place(t);
    let relation = relation_of(s, &here, t, &there);
    tag_by(relation, view.up.hop(t), view.down.hop(t))
}

/// That tag by what the source is to the other node, and by its hops up and down to it.
fn tag_by(relation: Relation, up: Option<Hop>, down: Option<Hop>) -> Option<Tag>
    ensures { result ≡ tag_by relation up down }
{
    match (relation, up, down) {
        (Relation::OneBlock, Some(_), _) => Some(Tag::Below),
        (Relation::OneBlock, None, Some(_)) => Some(Tag::Above),
        (Relation::OneBlock, None, None) => Some(Tag::Unordered),
        (Relation::ToHead, Some(_), _) => Some(Tag::Head),
        (Relation::FromHead, Some(_), _) => Some(Tag::Top),
        (Relation::ToHead | Relation::FromHead, None, _) | (Relation::Apart, _, _) => None,
    }
}
