//! The rows of one node for the nodes with which it has a block in common.

ghost use Rattle.std.specs.Prelude.{◌≡◌, ◌≢◌, ℕ, Some};
ghost use Rattle.mrt_graph.specs.{declared.cert.Tag.TheVariants.Sole, GraphInvariant.IsTopology, Topology.Topology};
ghost use Rattle.link_direction.specs.{Directions.Directions, OrderedGadag.IsOrderedGadag};
ghost use Rattle.block_spf.specs.FirstLink.{no_link};
ghost use Rattle.mrt_rows.specs.steps.NearOf.{IsNearRow};
ghost use Rattle.mrt_rows.specs.steps.Put.{IsMemberRow};
ghost use Rattle.mrt_rows.specs.steps.Source.{IsSourceBy};

use block_spf::NO_LINK;
use mrt_graph::{LinkNo, NodeNo, Place, Row, Tag};

/// The links by which a node begins the least paths up and down to another one.
#[derive(Clone, Copy)]
pub struct FirstLinks {
    pub up: LinkNo,
    pub down: LinkNo,
}

/// A node, with what its rows are made from: its place, the sole link of its block, and its first links to the block's head.
#[derive(Clone, Copy)]
pub struct Source {
    pub node: NodeNo,
    pub place: Place,
    pub sole: LinkNo,
    pub home: FirstLinks,
}

/// The row for another member of the block, by the first links to it and to the head.
pub fn member_row(links: &FirstLinks, home: &FirstLinks) -> Row
    ensures { IsMemberRow links.now home.now result }
{
    if links.up.get() != NO_LINK {
        return Row {
            blue: links.up,
            red: home.down,
            tag: Tag::Below,
        };
    }
    if links.down.get() != NO_LINK {
        return Row {
            blue: home.up,
            red: links.down,
            tag: Tag::Above,
        };
    }
    Row {
        blue: home.down,
        red: home.up,
        tag: Tag::Unordered,
    }
}

/// The row over a sole link, or where there is none, over the first links with this tag.
pub fn end_row(sole: LinkNo, links: &FirstLinks, tag: Tag) -> Row
    ensures sole { sole ≢ no_link → result ≡ record { blue = sole; red = sole; tag = Sole } }
    ensures other { sole ≡ no_link → result ≡ record { blue = links.now.up; red = links.now.down; tag = tag } }
{
    if sole.get() != NO_LINK {
        return Row {
            blue: sole,
            red: sole,
            tag: Tag::Sole,
        };
    }
    Row {
        blue: links.up,
        red: links.down,
        tag,
    }
}

/// The row of a node for the head of its block. That of the root, which is its own head, says nothing.
pub fn row_home(source: &Source) -> Row
    ensures { (g : Topology) (root : ℕ) (w : Directions) → IsTopology g → IsOrderedGadag g root w
        → IsSourceBy g w source.now → source.now.node ≢ root
        → IsNearRow g root w source.now.node (w.head source.now.node) (Some result) }
{
    end_row(source.sole, &source.home, Tag::Head)
}
