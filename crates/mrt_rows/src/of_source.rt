//! The rows of one node, and of one after another.

ghost use Rattle.std.specs.Prelude.{◌≡◌, ◌≢◌, ◌<◌, ◌≤◌, ◌+◌, ◌↔◌, ℕ, Option, IfOk, IsTrue, None, Some, length, slice_get, take};
ghost use Rattle.std.specs.Option.{option_map};
ghost use Rattle.mrt_graph.specs.{declared.cert.Row.Row, Tags.carried};
ghost use Rattle.link_direction.specs.{Directions.Directions, Directions.Says, OrderedGadag.SaysOrdered};
ghost use Rattle.mrt_rows.specs.steps.ColumnOf.{IsRowIn};
ghost use Rattle.mrt_rows.specs.RowMaker.{IsRowMaker};
ghost use Rattle.mrt_rows.specs.steps.RowMaker.{IsOpenFor};
ghost use Rattle.mrt_rows.specs.Put.{AreFirstLinks};
ghost use Rattle.mrt_rows.specs.RowsOf.{AreRowsOf, HasRow};
ghost use Rattle.mrt_rows.specs.steps.NearOf.{IsNearRow, IsPlaceOf, near_first};
ghost use Rattle.mrt_rows.specs.steps.ListedDirections.{IsNode, IsRooted, directions_by};
ghost use Rattle.mrt_rows.specs.steps.Source.{IsSourceBy};

use crate::common::Common;
use crate::directed::Rooted;
use crate::row_over::{FirstLinks, Source, row_home};
use block_spf::{Dir, Fan, NO_LINK};
use mrt_graph::{Directed, Graph, LinkNo, NoMemory, NodeNo, Row, Tag, carrier_of, relation_of};
use std::alloc::Global;

/// What the rows of all nodes have in common, and the first links of so many sources side by side: the fans are open from the
/// nodes from number `first` on, from none where there is no such node.
pub struct RowMaker {
    pub common: Common,
    pub width: u16,
    pub first: u16,
    pub up: Fan,
    pub down: Fan,
}

impl Drop for RowMaker {
    fn drop(self) {
        let Self {
            common: _,
            width: _,
            first: _,
            up: _,
            down: _,
        } = self;
    }
}

impl RowMaker {
    /// What makes the rows of each source, so many of them side by side.
    pub fn new(alloc: Global, rooted: &Rooted, width: u16) -> Result<RowMaker, NoMemory>
        requires rooted { IsRooted rooted.now }
        requires some { 0 < width }
        ensures made { IfOk result (IsRowMaker rooted.now.graph.now (directions_by rooted.now)) }
        ensures width { IfOk result (λ maker. maker.width ≡ width) }
    {
        let common = Common::new(alloc, rooted)?;
        let up = Fan::new(alloc, rooted.graph, width)?;
        let down = Fan::new(alloc, rooted.graph, width)?;
        Ok(RowMaker {
            common,
            width,
            first: rooted.graph.node_count(),
            up,
            down,
        })
    }

    /// Opens the fans from so many nodes, s among them, unless they are open so or s lies in no block of more than one link.
    pub fn open_for(&mut self, rooted: &Rooted, s: NodeNo)
        requires rooted { IsRooted rooted.now }
        requires made { IsRowMaker rooted.now.graph.now (directions_by rooted.now) self.old }
        requires node { IsNode rooted.now s }
        ensures width { self.new.width ≡ self.old.width }
        ensures made { IsRowMaker rooted.now.graph.now (directions_by rooted.now) self.new }
        ensures open { IsOpenFor rooted.now.graph.now (directions_by rooted.now) self.new s }
    {
        if self.is_open_from(s) || !self.common.is_among_more(rooted, s) {
            return;
        }
        self.first = s.get() - s.get() % self.width;
        let at = NodeNo::new(self.first);
        let d = rooted.directed;
        self.up
            .open(rooted.graph, d, Dir::Up, &self.common.by_order, at);
        self.down
            .open(rooted.graph, d, Dir::Down, &self.common.against_order, at);
    }

    /// Whether the fans are open from s.
    fn is_open_from(&self, s: NodeNo) -> bool
        ensures { IsTrue result ↔ ((self.now.first ≤ s) × (s < self.now.first + self.now.width)) }
    {
        self.first <= s.get() && s.get() - self.first < self.width
    }

    /// The row of a source for t. `None` where they have no block in common.
    pub fn row(&self, rooted: &Rooted, source: &Source, t: NodeNo) -> Option<Row>
        requires rooted { IsRooted rooted.now }
        requires made { IsRowMaker rooted.now.graph.now (directions_by rooted.now) self.now }
        requires open { IsOpenFor rooted.now.graph.now (directions_by rooted.now) self.now source.now.node }
        requires source { IsSourceBy rooted.now.graph.now (directions_by rooted.now) source.now }
        requires target { IsNode rooted.now t }
        requires two { source.now.node ≢ t }
        ensures { IsNearRow rooted.now.graph.now rooted.now.root (directions_by rooted.now) source.now.node t result }
    {
        let relation = relation_of(source.node, &source.place, t, &rooted.place(t));
        if relation.is_apart() {
            return None;
        }
        let links = self.links(rooted, source.node, t);
        self.common.row(rooted, source, t, relation, &links)
    }

    /// The first links of s to t, where the fans are open from it.
    fn links(&self, rooted: &Rooted, s: NodeNo, t: NodeNo) -> FirstLinks
        requires rooted { IsRooted rooted.now }
        requires made { IsRowMaker rooted.now.graph.now (directions_by rooted.now) self.now }
        requires open { IsOpenFor rooted.now.graph.now (directions_by rooted.now) self.now s }
        requires source { IsNode rooted.now s }
        requires target { IsNode rooted.now t }
        requires two { s ≢ t }
        ensures { AreFirstLinks rooted.now.graph.now (directions_by rooted.now) s t result }
    {
        if !self.is_open_from(s) {
            let none = LinkNo::new(NO_LINK);
            return FirstLinks {
                up: none,
                down: none,
            };
        }
        let first = NodeNo::new(self.first);
        FirstLinks {
            up: self.up.link(rooted.graph, first, s, t),
            down: self.down.link(rooted.graph, first, s, t),
        }
    }

    /// Puts the rows of s for the nodes with which it has a block in common, by ascending destination, from the first place on,
    /// and tells how many there are.
    pub fn put_near_rows(&self, rooted: &Rooted, s: NodeNo, room: &mut [Row]) -> usize
        requires rooted { IsRooted rooted.now }
        requires made { IsRowMaker rooted.now.graph.now (directions_by rooted.now) self.now }
        requires open { IsOpenFor rooted.now.graph.now (directions_by rooted.now) self.now s }
        requires node { IsNode rooted.now s }
        requires room { length room.old ≡ length rooted.now.graph.now.ids }
        ensures room { length room.new ≡ length room.old }
        ensures within { result ≤ length room.new }
        ensures rows { (rows : ℕ → Option Row)
            → ((t : ℕ) → IsNode rooted.now t → s ≢ t → HasRow rooted.now.graph.now rooted.now.root (directions_by rooted.now) s rows t)
            → rows s ≡ None → take result room.new ≡ near_first rows (length rooted.now.graph.now.ids) }
    {
        let source = self.common.source(rooted, s);
        let mut found = 0;
        for n in 0..rooted.graph.node_count() {
            let t = NodeNo::new(n);
            if t != s {
                if let Some(row) = self.row(rooted, &source, t) {
                    room[found] = row;
                    found += 1;
                }
            }
        }
        found
    }
}

/// The rows of `source` for all other nodes, by ascending destination.
///
/// For callers of these crates (docs/LIBRARY.md) and tests; `certify` takes [`SourceRows`](crate::SourceRows).
///
/// It takes time in proportion to the nodes and the links.
pub fn rows_of(
    alloc: Global,
    g: &Graph,
    root: NodeNo,
    d: &Directed,
    source: NodeNo,
) -> Result<Vec<Row>, NoMemory>
    requires directed { SaysOrdered g.now root d.now }
    requires source { source < length g.now.ids }
    ensures { (w : Directions) → Says g.now d.now w
        → IfOk result (λ rows. AreRowsOf g.now root w source rows.items) }
{
    let count = g.node_count() as usize;
    let rooted = Rooted {
        graph: g,
        root,
        directed: d,
    };
    let mut maker = RowMaker::new(alloc, &rooted, 1)?;
    maker.open_for(&rooted, source);
    let link = LinkNo::new(0);
    let none_yet = Row {
        blue: link,
        red: link,
        tag: Tag::Carried,
    };
    let mut rows = vec![in alloc; none_yet; count]?;
    put_rows(&rooted, &maker, source, &mut rows);
    rows.remove(source.get() as usize);
    Ok(rows)
}

/// Puts the rows of s for all other nodes, each at the place of its destination.
///
/// A row may be carried from the row for the carrier. The carrier is the destination's head, which has a lower order, so
/// that its row is there already; or, for the root, whose turn comes first, the head of the source: its row is put before all.
fn put_rows(rooted: &Rooted, maker: &RowMaker, s: NodeNo, rows: &mut [Row])
    requires rooted { IsRooted rooted.now }
    requires made { IsRowMaker rooted.now.graph.now (directions_by rooted.now) maker.now }
    requires open { IsOpenFor rooted.now.graph.now (directions_by rooted.now) maker.now s }
    requires node { IsNode rooted.now s }
    requires one_each { length rows.old ≡ length rooted.now.graph.now.ids }
    ensures one_each { length rows.new ≡ length rooted.now.graph.now.ids }
    ensures rows { (t : ℕ) → IsNode rooted.now t → s ≢ t
        → IsRowIn rooted.now.graph.now rooted.now.root (directions_by rooted.now) s t (slice_get rows.new t) }
{
    let source = maker.common.source(rooted, s);
    let home = source.place.head.get() as usize;
    rows[home] = row_home(&source);
    for t in &maker.common.by_order {
        if *t != s {
            let from = carried_to(rooted, &source, *t, rows);
            let near = maker.row(rooted, &source, *t);
            rows[t.get() as usize] = near.unwrap_or(from);
        }
    }
}

/// The row for `t` as it is carried: from that for the carrier.
fn carried_to(rooted: &Rooted, source: &Source, t: NodeNo, rows: &[Row]) -> Row
    requires rooted { IsRooted rooted.now }
    requires source { IsPlaceOf (directions_by rooted.now) source.now.node source.now.place }
    requires node { IsNode rooted.now source.now.node }
    requires target { IsNode rooted.now t }
    requires one_each { length rows.now ≡ length rooted.now.graph.now.ids }
    ensures to_other { t ≢ rooted.now.root
        → Some result ≡ option_map carried (slice_get rows.now ((directions_by rooted.now).head t)) }
    ensures to_root { t ≡ rooted.now.root
        → Some result ≡ option_map carried (slice_get rows.now ((directions_by rooted.now).head source.now.node)) }
{
    let by = carrier_of(rooted.root, &source.place, t, &rooted.place(t));
    rows[by.get() as usize].carried()
}
