//! Which of the few elements of a primary a color walk uses.

ghost use Rattle.std.specs.Prelude.{◌≡◌, ◌↔◌, ◌⊎◌, IsNone, IsTrue};
ghost use Rattle.mrt_report.specs.steps.LineParts.{AreLineParts};
ghost use Rattle.mrt_report.specs.steps.Uses.{IsOverOne, TellUses};
ghost use Rattle.mrt_report.specs.steps.Viewed.{viewed};

use crate::elements::ArcElements;
use crate::parts::Parts;
use mrt_graph::{Color, Element, RowsOf};
use primary_alt::{ColorHop, is_over, next_hop};

/// Of the elements of an arc, each by itself: whether a color walk uses it.
#[derive(Clone, Copy)]
pub struct ArcUses {
    pub link: bool,
    pub node: bool,
}

/// Of the elements of two arcs.
#[derive(Clone, Copy)]
pub struct BothUses {
    pub first: ArcUses,
    pub second: ArcUses,
}

/// Which elements of two arcs the color walk from the router to the destination uses.
///
/// It follows the walk once, whatever the number of elements, up to where all of them are used, and takes no memory.
pub fn uses_of<R: RowsOf>(
    parts: &Parts<'_, R>,
    color: Color,
    first: &ArcElements,
    second: &ArcElements,
) -> BothUses
    requires kept { AreLineParts (viewed R.rows parts.now) parts.now.to }
    ensures first { TellUses (viewed R.rows parts.now) parts.now.to color first.now result.first }
    ensures second { TellUses (viewed R.rows parts.now) parts.now.to color second.now result.second }
{
    let none = ArcUses {
        link: false,
        node: false,
    };
    let mut uses = BothUses {
        first: none,
        second: none,
    };
    let mut at = parts.source;
    let mut left = parts.island.node_count();
    while left > 0 && at != parts.to {
        if are_told(&uses.first, first) && are_told(&uses.second, second) {
            return uses;
        }
        let hop = next_hop(parts.island, parts.rows, at, parts.to, color);
        uses = BothUses {
            first: uses_after(&uses.first, first, &hop),
            second: uses_after(&uses.second, second, &hop),
        };
        at = hop.to;
        left -= 1;
    }
    uses
}

/// The elements of an arc, without those that are not used; that these are left out saves time, and no clause tells it.
pub fn used_of(elements: &ArcElements, uses: &ArcUses) -> ArcElements
    ensures link { IsTrue uses.now.link → result.link ≡ elements.now.link }
    ensures node { IsTrue uses.now.node → result.node ≡ elements.now.node }
{
    ArcElements {
        link: if uses.link { elements.link } else { None },
        node: if uses.node { elements.node } else { None },
    }
}

/// Whether no hop more can change what is told of these elements: those that are there are used.
fn are_told(uses: &ArcUses, elements: &ArcElements) -> bool
    ensures { IsTrue result ↔ ((IsTrue uses.now.link ⊎ IsNone elements.now.link)
        × (IsTrue uses.now.node ⊎ IsNone elements.now.node)) }
{
    (uses.link || elements.link.is_none()) && (uses.node || elements.node.is_none())
}

/// What is used after one hop more.
fn uses_after(uses: &ArcUses, elements: &ArcElements, hop: &ColorHop) -> ArcUses
    ensures link { IsTrue result.link
        ↔ (IsTrue uses.now.link ⊎ IsOverOne hop.now.link hop.now.to elements.now.link) }
    ensures node { IsTrue result.node
        ↔ (IsTrue uses.now.node ⊎ IsOverOne hop.now.link hop.now.to elements.now.node) }
{
    ArcUses {
        link: is_used(uses.link, &elements.link, hop),
        node: is_used(uses.node, &elements.node, hop),
    }
}

/// Whether an element was used before this hop, or is by it.
fn is_used(before: bool, x: &Option<Element>, hop: &ColorHop) -> bool
    ensures { IsTrue result ↔ (IsTrue before ⊎ IsOverOne hop.now.link hop.now.to x.now) }
{
    before || is_over_one(x, hop)
}

/// Whether a hop is over an element, if there is one.
fn is_over_one(x: &Option<Element>, hop: &ColorHop) -> bool
    ensures { IsTrue result ↔ IsOverOne hop.now.link hop.now.to x.now }
{
    match x {
        Some(x) => is_over(hop, x),
        None => false,
    }
}
