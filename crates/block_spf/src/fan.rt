//! Fans: the links by which some nodes side by side begin the least paths to all nodes.

ghost use Rattle.std.specs.Prelude.{◌≡◌, ◌≢◌, ◌<◌, ◌≤◌, ◌+◌, ◌*◌, ℕ, IfOk, length, slice_index, false, true};
ghost use Rattle.mrt_graph.specs.GraphInvariant.{IsTopology};
ghost use Rattle.link_direction.specs.Directions.{Directions};
ghost use Rattle.block_spf.specs.steps.Fan.{AreInFan};
ghost use Rattle.block_spf.specs.Fan.{IsOpen, link_at};
ghost use Rattle.block_spf.specs.FanEntries.{FanEntries};
ghost use Rattle.block_spf.specs.steps.FanEntries.{fan_entries};
ghost use Rattle.block_spf.specs.HasDirections.{AreDirections, HasDirections};
ghost use Rattle.block_spf.specs.{FirstLink.IsFirstLink, LeastPath.IsHop, Rest.far, Turns.AreTurns};
ghost use Rattle.block_spf.specs.steps.Known.{AreLanes, known_at};
ghost use Rattle.block_spf.specs.steps.Opening.{AreFirstOffered, AreStops, GoOn, IsKeptOnward, IsOpening, Stop};

use crate::offers::{NO_PLACE, offer_begun, offer_on};
use crate::reach::{Dir, Hop};
use crate::side::{FAR, NO_LINK, hop_by};
use mrt_graph::{Directed, End, Graph, LinkNo, NoMemory, NodeNo};
use std::alloc::Global;
use std::marker::Model;

/// For each node, and each of the sources side by side, the least cost and the place of the source's end that begins the
/// least path; the same of the node that has its turn; and marks on the sources and on their heads.
pub struct Fan {
    costs: Vec<u32>,
    places: Vec<u16>,
    from_costs: Vec<u32>,
    from_places: Vec<u16>,
    stops: Vec<bool>,
}

impl Drop for Fan {
    fn drop(self) {
        let Self {
            costs: _,
            places: _,
            from_costs: _,
            from_places: _,
            stops: _,
        } = self;
    }
}

impl Model for Fan {
    ghost use Rattle.std.specs.Prelude.{length};
    ghost use Rattle.block_spf.specs.steps.FanEntries.{AreEntries, fan_entries};
    ghost use Rattle.block_spf.specs.FanEntries.{FanEntries};

    ghost Value = { FanEntries };

    ghost view = { λ fan. fan_entries (length fan.stops.items) (length fan.from_costs.items) fan.costs.items fan.places.items };

    ghost invariant = { λ fan. AreEntries (length fan.stops.items) (length fan.from_costs.items) (length fan.from_places.items)
        fan.costs.items fan.places.items };
}

impl Fan {
    /// A fan of this width.
    ///
    /// It takes time and memory in proportion to the nodes times the width.
    pub fn new(alloc: Global, g: &Graph, width: u16) -> Result<Fan, NoMemory>
        ensures nodes { IfOk result (λ fan. fan.nodes ≡ length g.now.ids) }
        ensures width { IfOk result (λ fan. fan.width ≡ width) }
    {
        let count = g.node_count() as usize;
        Ok(Fan {
            costs: vec![in alloc; FAR; count * width as usize]?,
            places: vec![in alloc; NO_PLACE; count * width as usize]?,
            from_costs: vec![in alloc; FAR; width as usize]?,
            from_places: vec![in alloc; NO_PLACE; width as usize]?,
            stops: vec![in alloc; false; count]?,
        })
    }

    /// Opens it from the nodes from `first` on: one sweep over all nodes in the order of their turns.
    ///
    /// It takes time in proportion to the nodes, and to the ends of those that a source reaches, times the width.
    pub fn open(&mut self, g: &Graph, d: &Directed, dir: Dir, turns: &[NodeNo], first: NodeNo)
        requires kept { IsTopology g.now }
        requires directed { HasDirections g.now d.now }
        requires turns { (root : ℕ) (w : Directions) → AreDirections g.now d.now root w
            → AreTurns g.now w dir turns.now }
        requires first { first ≤ length g.now.ids }
        requires nodes { self.old.nodes ≡ length g.now.ids }
        ensures nodes { self.new.nodes ≡ self.old.nodes }
        ensures width { self.new.width ≡ self.old.width }
        ensures open { (root : ℕ) (w : Directions) → AreDirections g.now d.now root w
            → IsOpen g.now w dir first self.new }
    {
        let opening = Opening {
            graph: g,
            directed: d,
            dir,
            turns,
            first,
        };
        let width = self.from_costs.len();
        begin(
            &opening,
            width,
            &mut self.costs,
            &mut self.places,
            &mut self.stops,
        );
        sweep(
            &opening,
            &self.stops,
            &mut self.costs,
            &mut self.places,
            &mut self.from_costs,
            &mut self.from_places,
        );
    }

    /// The hop of source s for node t. It is open from the nodes from `first` on.
    pub(crate) fn hop(&self, g: &Graph, first: NodeNo, s: NodeNo, t: NodeNo) -> Option<Hop>
        requires { AreInFan g.now self.now first s t }
        ensures { (w : Directions) (dir : Dir) → IsOpen g.now w dir first self.now → IsHop g.now w dir s t result }
    {
        if t == s {
            return None;
        }
        let at = t.get() as usize * self.from_costs.len() + (s.get() - first.get()) as usize;
        hop_by(self.costs[at], link_at(g.ends(s), self.places[at]))
    }

    /// The link by which source s begins the least path to another node t. It is open from the nodes from `first` on.
    pub fn link(&self, g: &Graph, first: NodeNo, s: NodeNo, t: NodeNo) -> LinkNo
        requires nodes { self.now.nodes ≡ length g.now.ids }
        requires source { s < length g.now.ids }
        requires from { first ≤ s }
        requires among { s < first + self.now.width }
        requires target { t < length g.now.ids }
        ensures { (w : Directions) (dir : Dir) → IsOpen g.now w dir first self.now → s ≢ t
            → IsFirstLink g.now w dir s t result }
    {
        let place = t.get() as usize * self.from_costs.len() + (s.get() - first.get()) as usize;
        link_at(g.ends(s), self.places[place])
    }
}

/// What a fan is opened from: a graph with its directions; up or down; the nodes by their turns; and the first source.
#[derive(Clone, Copy)]
pub struct Opening<'a> {
    pub graph: &'a Graph,
    pub directed: &'a Directed,
    pub dir: Dir,
    pub turns: &'a [NodeNo],
    pub first: NodeNo,
}

/// The link of the end at a place; no link where there is none.
fn link_at(ends: &[End], place: u16) -> LinkNo
    ensures { result ≡ link_at ends.now place }
{
    ends.get(place as usize)
        .map_or(LinkNo::new(NO_LINK), |end| end.link)
}

/// How many of the nodes from the first source on there are, at most as many as the width.
fn source_count(opening: &Opening, width: usize) -> usize
    requires { opening.now.first ≤ length opening.now.graph.now.ids }
    ensures most { result ≤ width }
    ensures within { opening.now.first + result ≤ length opening.now.graph.now.ids }
    ensures all { (j : ℕ) → j < width → opening.now.first + j < length opening.now.graph.now.ids → j < result }
{
    width.min((opening.graph.node_count() - opening.first.get()) as usize)
}

/// Offers each node to which the ends of the sources lead on, where nothing was known; and marks the sources and their heads.
fn begin(opening: &Opening, width: usize, costs: &mut [u32], places: &mut [u16], stops: &mut [bool])
    requires opening { IsOpening opening.now }
    requires costs { length costs.old ≡ length opening.now.graph.now.ids * width }
    requires places { length places.old ≡ length opening.now.graph.now.ids * width }
    requires stops { length stops.old ≡ length opening.now.graph.now.ids }
    ensures begun { AreFirstOffered opening.now width costs.new places.new }
    ensures stops { AreStops opening.now width stops.new }
{
    costs.fill(FAR);
    places.fill(NO_PLACE);
    stops.fill(false);
    for j in 0..source_count(opening, width) {
        let source = NodeNo::new(opening.first.get() + j as u16);
        offer_begun(opening, source, j, width, costs, places);
        stops[source.get() as usize] = true;
        stops[opening.directed.place(source).head.get() as usize] = true;
    }
}

/// Gives each node its turn, where a path to it is known.
fn sweep(
    opening: &Opening,
    stops: &[bool],
    costs: &mut [u32],
    places: &mut [u16],
    from_costs: &mut [u32],
    from_places: &mut [u16],
)
    requires opening { IsOpening opening.now }
    requires stops { AreStops opening.now (length from_costs.old) stops.now }
    requires from_places { length from_places.old ≡ length from_costs.old }
    requires begun { AreFirstOffered opening.now (length from_costs.old) costs.old places.old }
    ensures { (root : ℕ) (w : Directions) → AreDirections opening.now.graph.now opening.now.directed.now root w
        → IsOpen opening.now.graph.now w opening.now.dir opening.now.first
        (fan_entries (length stops.now) (length from_costs.old) costs.new places.new) }
{
    for x in opening.turns {
        if is_reached(*x, from_costs.len(), costs) {
            take_from(*x, costs, places, from_costs, from_places);
            keep_onward(opening, *x, stops, from_costs, from_places);
            offer_on(opening, *x, from_costs, from_places, costs, places);
        }
    }
}

/// Whether a path to x is known, from one of so many sources. Most sources reach the nodes of few blocks alone.
fn is_reached(x: NodeNo, width: usize, costs: &[u32]) -> bool
    requires { x * width + width ≤ length costs.now }
    ensures { result ≡ false → (j : ℕ) → j < width → far ≤ slice_index costs.now (x * width + j) }
{
    let at = x.get() as usize * width;
    let mut least = FAR;
    for cost in &costs[at..at + width] {
        least = least.min(*cost);
    }
    least < FAR
}

/// Takes what is known of x.
fn take_from(
    x: NodeNo,
    costs: &[u32],
    places: &[u16],
    from_costs: &mut [u32],
    from_places: &mut [u16],
)
    requires room { x * length from_costs.old + length from_costs.old ≤ length costs.now }
    requires from_places { length from_places.old ≡ length from_costs.old }
    requires lanes { AreLanes costs.now places.now }
    ensures lanes { AreLanes from_costs.new from_places.new }
    ensures taken { (j : ℕ) → j < length from_costs.old
        → known_at from_costs.new from_places.new j ≡ known_at costs.now places.now (x * length from_costs.old + j) }
{
    let width = from_costs.len();
    let at = x.get() as usize * width;
    from_costs.copy_from_slice(&costs[at..at + width]);
    from_places.copy_from_slice(&places[at..at + width]);
}

/// Keeps what is known of x for the sources whose paths go on from x; for the others x is the source, or the head of its block.
fn keep_onward(
    opening: &Opening,
    x: NodeNo,
    stops: &[bool],
    from_costs: &mut [u32],
    from_places: &mut [u16],
)
    requires opening { IsOpening opening.now }
    requires node { x < length opening.now.graph.now.ids }
    requires stops { AreStops opening.now (length from_costs.old) stops.now }
    requires lanes { AreLanes from_costs.old from_places.old }
    ensures lanes { AreLanes from_costs.new from_places.new }
    ensures onward { (j : ℕ) → IsKeptOnward opening.now x (length from_costs.old) j (known_at from_costs.old from_places.old j)
        (known_at from_costs.new from_places.new j) }
{
    if !stops[x.get() as usize] {
        return;
    }
    for j in 0..source_count(opening, from_costs.len()) {
        let source = NodeNo::new(opening.first.get() + j as u16);
        if is_stop(opening, source, x) {
            from_costs[j] = FAR;
            from_places[j] = NO_PLACE;
        }
    }
}

/// Whether a path from the source that comes to x does not go on: x is the source, or the head of its block.
fn is_stop(opening: &Opening, source: NodeNo, x: NodeNo) -> bool
    requires opening { IsOpening opening.now }
    requires source { source < length opening.now.graph.now.ids }
    ensures goes { result ≡ false → GoOn opening.now source x }
    ensures stops { result ≡ true → Stop opening.now source x }
{
    source == x || opening.directed.place(source).head == x
}
