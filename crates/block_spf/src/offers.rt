//! Offers of paths from some sources side by side.

ghost use Rattle.std.specs.Prelude.{◌≡◌, ◌<◌, ◌≤◌, ◌+◌, ◌*◌, ◌↔◌, IsTrue, length};
ghost use Rattle.mrt_graph.specs.declared.cert.Role.TheVariants.{Sole};
ghost use Rattle.block_spf.specs.steps.Offers.{OffersFirst, OffersFurther, goes_on};
ghost use Rattle.block_spf.specs.steps.Opening.{IsOpening};
ghost use Rattle.block_spf.specs.Rest.{far};
ghost use Rattle.block_spf.specs.steps.Known.{AreLanes, AreLow, AreOffered, IsOne, IsOver, comes_before, known, known_at, no_place};

use crate::fan::Opening;
use crate::reach::Dir;
use crate::side::either;
use mrt_graph::{NodeNo, Role, Way};

/// Stands for no end: no node has so many.
pub const NO_PLACE: u16 = 65535;

/// Whether a path comes before another one.
fn comes_before(cost: u32, place: u16, old: u32, old_place: u16) -> bool
    ensures { result ≡ comes_before (known cost place) (known old old_place) }
{
    cost < old || (cost == old && place < old_place)
}

/// Offers a path: it is kept where it comes first.
fn offer_at(at: usize, cost: u32, place: u16, costs: &mut [u32], places: &mut [u16])
    requires at { at < length costs.old }
    requires lanes { AreLanes costs.old places.old }
    requires low { far ≤ cost → no_place ≤ place }
    ensures lanes { AreLanes costs.new places.new }
    ensures offered { AreOffered (IsOne at (known cost place)) (known_at costs.old places.old) (known_at costs.new places.new) }
{
    let first = comes_before(cost, place, costs[at], places[at]);
    costs[at] = either(first, cost, costs[at]);
    places[at] = either(first, place, places[at]);
}

/// Offers the paths over an end with this metric, at the places from `at` on, by what is known where the end leads from.
fn offer_over(
    from_costs: &[u32],
    from_places: &[u16],
    metric: u16,
    at: usize,
    costs: &mut [u32],
    places: &mut [u16],
)
    requires from { AreLanes from_costs.now from_places.now }
    requires low { AreLow from_costs.now }
    requires room { at + length from_costs.now ≤ length costs.old }
    requires lanes { AreLanes costs.old places.old }
    ensures lanes { AreLanes costs.new places.new }
    ensures offered { AreOffered (IsOver from_costs.now from_places.now metric at) (known_at costs.old places.old)
        (known_at costs.new places.new) }
{
    for j in 0..from_costs.len() {
        let cost = from_costs[j] + metric as u32;
        offer_at(at + j, cost, from_places[j], costs, places);
    }
}

/// Offers each node to which an end of x leads on in its block, for each source at its place.
pub fn offer_on(
    opening: &Opening,
    x: NodeNo,
    from_costs: &[u32],
    from_places: &[u16],
    costs: &mut [u32],
    places: &mut [u16],
)
    requires opening { IsOpening opening.now }
    requires node { x < length opening.now.graph.now.ids }
    requires from { AreLanes from_costs.now from_places.now }
    requires low { AreLow from_costs.now }
    requires room { length costs.old ≡ length opening.now.graph.now.ids * length from_costs.now }
    requires lanes { AreLanes costs.old places.old }
    ensures lanes { AreLanes costs.new places.new }
    ensures offered { OffersFurther opening.now x from_costs.now from_places.now (known_at costs.old places.old)
        (known_at costs.new places.new) }
{
    let block = opening.directed.place(x).block;
    let width = from_costs.len();
    for end in opening.graph.ends(x) {
        let mark = opening.directed.mark(end.link);
        if mark.block == block && leads_on(opening.dir, mark.way, x, end.to) {
            let at = end.to.get() as usize * width;
            offer_over(from_costs, from_places, end.metric, at, costs, places);
        }
    }
}

/// Offers each node to which an end of the source at place j leads on, but over sole links.
pub fn offer_begun(
    opening: &Opening,
    source: NodeNo,
    j: usize,
    width: usize,
    costs: &mut [u32],
    places: &mut [u16],
)
    requires opening { IsOpening opening.now }
    requires source { source < length opening.now.graph.now.ids }
    requires place { j < width }
    requires room { length costs.old ≡ length opening.now.graph.now.ids * width }
    requires lanes { AreLanes costs.old places.old }
    ensures lanes { AreLanes costs.new places.new }
    ensures offered { OffersFirst opening.now source width j (known_at costs.old places.old) (known_at costs.new places.new) }
{
    for (place, end) in opening.graph.ends(source).iter().enumerate() {
        let mark = opening.directed.mark(end.link);
        if !is_sole(mark.role) && leads_on(opening.dir, mark.way, source, end.to) {
            let at = end.to.get() as usize * width + j;
            offer_at(at, end.metric as u32, place as u16, costs, places);
        }
    }
}

/// Whether a link with this direction leads on from its node x to its other node.
pub fn leads_on(dir: Dir, way: Way, x: NodeNo, to: NodeNo) -> bool
    ensures { result ≡ goes_on dir way x to }
{
    match (dir, way) {
        (Dir::Up, Way::AToB) | (Dir::Down, Way::BToA) => x.get() < to.get(),
        (Dir::Up, Way::BToA) | (Dir::Down, Way::AToB) => to.get() < x.get(),
        (_, Way::Unset) => false,
    }
}

/// Whether a link of this role is the one link of its block.
pub fn is_sole(role: Role) -> bool
    ensures { IsTrue result ↔ (role ≡ Sole) }
{
    matches!(role, Role::Sole)
}
