//! The columns of destinations.

ghost use Rattle.std.specs.Prelude.{◌≡◌, ◌≢◌, ◌<◌, ◌*◌, ℕ, [], IfOk, IfSome, Some, length, slice_get, true};
ghost use Rattle.block_spf.specs.BlockAims.{aim_at};
ghost use Rattle.mrt_rows.specs.Chain.{AreBelow, AreBlockAims, AreWayAims};
ghost use Rattle.mrt_rows.specs.steps.Chain.{IsRowAim};
ghost use Rattle.mrt_rows.specs.steps.ColumnOf.{IsRowIn};
ghost use Rattle.mrt_rows.specs.NearOf.{AreSoles};
ghost use Rattle.mrt_rows.specs.steps.NearOf.{IsNearRow};
ghost use Rattle.mrt_rows.specs.AimedColumns.{AreAimed, AreColumns, AreColumnsFor};
ghost use Rattle.mrt_rows.specs.Put.{AreFirstLinks};
ghost use Rattle.mrt_rows.specs.steps.ListedDirections.{IsNode, IsRooted, directions_by};

use crate::common::{Common, mark};
use crate::directed::Rooted;
use crate::row_over::{FirstLinks, row_home};
use crate::tiles::{Tiles, take_shared};
use block_spf::put_heads;
use mrt_graph::{LinkNo, NoMemory, NodeNo, Row, relation_of};
use std::alloc::Global;

/// At most so many destinations are taken side by side.
pub(crate) const WIDTH: u16 = 64;

/// A node that is aimed at, and its place beside others.
#[derive(Clone, Copy)]
pub struct Target {
    pub node: NodeNo,
    pub at: usize,
}

/// What the rows of all nodes have in common, and the room in which columns are made: the nodes below others on the way from one
/// destination to the root; some destinations side by side; what the blocks aim at for them, with tiles for the blocks of more
/// than one link on the ways to the root: `shared`, of one place, for those that aim at one node for all, `each` for the others.
pub struct Columns {
    common: Common,
    below: Vec<Option<NodeNo>>,
    targets: Vec<NodeNo>,
    each: Tiles,
    shared: Tiles,
}

impl Drop for Columns {
    fn drop(self) {
        let Self {
            common: _,
            below: _,
            targets: _,
            each: _,
            shared: _,
        } = self;
    }
}

impl Columns {
    /// What the columns have in common, and room for so many destinations side by side.
    pub fn new(alloc: Global, rooted: &Rooted, width: u16) -> Result<Columns, NoMemory>
        requires rooted { IsRooted rooted.now }
        requires some { 0 < width }
        ensures { IfOk result (AreColumns rooted.now.graph.now rooted.now.root (directions_by rooted.now)) }
    {
        let count = rooted.graph.node_count();
        let common = Common::new(alloc, rooted)?;
        let below = vec![in alloc; None; count as usize]?;
        // there is no such node, so nothing is aimed at yet
        let targets = vec![in alloc; NodeNo::new(count); width as usize]?;
        let each = Tiles::new(alloc, rooted, width)?;
        let shared = Tiles::new(alloc, rooted, 1)?;
        Ok(Columns {
            common,
            below,
            targets,
            each,
            shared,
        })
    }

    /// Aims at `to`, and answers its place among the destinations that the tiles are aimed at.
    ///
    /// Where the tiles are not aimed at `to`, they are aimed at it and the next nodes by number, the marked ones among them if
    /// there are marks, in time in proportion to the nodes times the width, and to the links, times the width in the blocks that do
    /// not aim at one node for all. It takes no memory.
    pub fn aim(&mut self, rooted: &Rooted, to: NodeNo, marks: Option<&[bool]>) -> Target
        requires rooted { IsRooted rooted.now }
        requires to { IsNode rooted.now to }
        requires marks { IfSome marks (λ marks. length marks.now ≡ length rooted.now.graph.now.ids) }
        requires held { AreColumns rooted.now.graph.now rooted.now.root (directions_by rooted.now) self.old }
        ensures node { result.node ≡ to }
        ensures aimed { AreAimed rooted.now.graph.now rooted.now.root rooted.now.directed.now self.new result }
    {
        let at = self.place_for(rooted, to, marks);
        put_below(rooted, to, &mut self.below);
        Target { node: to, at }
    }

    /// The place of `to` among the destinations that the tiles are aimed at; they are aimed anew where it has none.
    fn place_for(&mut self, rooted: &Rooted, to: NodeNo, marks: Option<&[bool]>) -> usize
        requires rooted { IsRooted rooted.now }
        requires to { IsNode rooted.now to }
        requires marks { IfSome marks (λ marks. length marks.now ≡ length rooted.now.graph.now.ids) }
        requires held { AreColumns rooted.now.graph.now rooted.now.root (directions_by rooted.now) self.old }
        ensures held { AreColumns rooted.now.graph.now rooted.now.root (directions_by rooted.now) self.new }
        ensures place { slice_get self.new.targets.items result ≡ Some to }
    {
        match place_of(&self.targets, to) {
            Some(at) => at,
            None => {
                take_next(marks, rooted.graph.node_count(), to, &mut self.targets);
                self.aim_tiles(rooted);
                0
            }
        }
    }

    /// Aims the tiles at the destinations in their places.
    fn aim_tiles(&mut self, rooted: &Rooted)
        requires rooted { IsRooted rooted.now }
        requires within { (j t : ℕ) → slice_get self.old.targets.items j ≡ Some t → IsNode rooted.now t }
        requires held { AreColumnsFor rooted.now.graph.now rooted.now.root (directions_by rooted.now) self.old [] }
        ensures held { AreColumns rooted.now.graph.now rooted.now.root (directions_by rooted.now) self.new }
        ensures targets { self.new.targets.items ≡ self.old.targets.items }
    {
        put_ways(
            rooted,
            &self.common.soles,
            &self.targets,
            &mut self.each.aims,
            &mut self.each.wanted,
        );
        take_shared(
            self.targets.len(),
            &self.each.aims,
            &mut self.each.wanted,
            &mut self.shared.aims,
            &mut self.shared.wanted,
        );
        let common = &self.common;
        self.each.aim(
            rooted,
            &common.by_order,
            &common.against_order,
            &common.heads,
        );
        self.shared.aim(
            rooted,
            &common.by_order,
            &common.against_order,
            &common.heads,
        );
    }

    /// The row of `s` for `to`, by its row for what it aims at.
    pub fn row(&self, rooted: &Rooted, s: NodeNo, to: Target) -> Option<Row>
        requires aimed { AreAimed rooted.now.graph.now rooted.now.root rooted.now.directed.now self.now to }
        requires source { IsNode rooted.now s }
        requires two { s ≢ to.node }
        ensures { IsRowIn rooted.now.graph.now rooted.now.root (directions_by rooted.now) s to.node result }
    {
        let aim = self.aim_of(rooted, s, to);
        let row = self.aimed_row(rooted, s, to, aim)?;
        if aim == to.node {
            return Some(row);
        }
        Some(row.carried())
    }

    /// What s aims at: the node below it on the way from the destination to the root, or else what its block aims at.
    fn aim_of(&self, rooted: &Rooted, s: NodeNo, to: Target) -> NodeNo
        requires aimed { AreAimed rooted.now.graph.now rooted.now.root rooted.now.directed.now self.now to }
        requires source { IsNode rooted.now s }
        ensures { IsRowAim (directions_by rooted.now) self.now.below.items s result }
    {
        if let Some(under) = self.below[s.get() as usize] {
            return under;
        }
        let at = rooted.place(s).block.get() as usize * self.targets.len();
        self.each.aims[at + to.at]
    }

    /// The row of `s` for what it aims at. The links home are held.
    fn aimed_row(&self, rooted: &Rooted, s: NodeNo, to: Target, aim: NodeNo) -> Option<Row>
        requires aimed { AreAimed rooted.now.graph.now rooted.now.root rooted.now.directed.now self.now to }
        requires source { IsNode rooted.now s }
        requires two { s ≢ to.node }
        requires aim { IsRowAim (directions_by rooted.now) self.now.below.items s aim }
        ensures { IsNearRow rooted.now.graph.now rooted.now.root (directions_by rooted.now) s aim result }
    {
        let source = self.common.source(rooted, s);
        if source.place.head == aim {
            return Some(row_home(&source));
        }
        let links = self.links_to(rooted, s, to, aim);
        let relation = relation_of(source.node, &source.place, aim, &rooted.place(aim));
        self.common.row(rooted, &source, aim, relation, &links)
    }

    /// The first links of `s` to what it aims at, which is not its head.
    fn links_to(&self, rooted: &Rooted, s: NodeNo, to: Target, aim: NodeNo) -> FirstLinks
        requires aimed { AreAimed rooted.now.graph.now rooted.now.root rooted.now.directed.now self.now to }
        requires source { IsNode rooted.now s }
        requires aim { IsRowAim (directions_by rooted.now) self.now.below.items s aim }
        requires away { (directions_by rooted.now).head s ≢ aim }
        ensures { AreFirstLinks rooted.now.graph.now (directions_by rooted.now) s aim result }
    {
        let block = rooted.place(aim).block;
        if self.shared.wanted[block.get() as usize] {
            return self.shared.links_of(s, 0);
        }
        self.each.links_of(s, to.at)
    }
}

/// The place of a node, if it stands there.
fn place_of(targets: &[NodeNo], node: NodeNo) -> Option<usize>
    ensures { IfSome result (λ at. slice_get targets.now at ≡ Some node) }
{
    for at in 0..targets.len() {
        if targets[at] == node {
            return Some(at);
        }
    }
    None
}

/// Puts a node and the next ones by number, the marked ones if there are marks, and the first one again where no more follow.
fn take_next(marks: Option<&[bool]>, count: u16, from: NodeNo, targets: &mut [NodeNo])
    requires some { 0 < length targets.old }
    requires from { from < count }
    requires marks { IfSome marks (λ marks. length marks.now ≡ count) }
    ensures one_each { length targets.new ≡ length targets.old }
    ensures first { slice_get targets.new 0 ≡ Some from }
    ensures within { (j t : ℕ) → slice_get targets.new j ≡ Some t → t < count }
{
    targets.fill(from);
    let mut at = 1;
    for n in from.get() + 1..count {
        if at >= targets.len() {
            return;
        }
        if is_marked(marks, n) {
            targets[at] = NodeNo::new(n);
            at += 1;
        }
    }
}

/// Whether a node is marked, if there are marks.
fn is_marked(marks: Option<&[bool]>, n: u16) -> bool
    requires { IfSome marks (λ marks. n < length marks.now) }
{
    match marks {
        Some(marks) => marks[n as usize],
        None => true,
    }
}

/// Puts what each block aims at for each of the destinations, at the places of the block: its node on the way from the
/// destination to the root, or its head where none lies in it; and marks the blocks of more than one link on the ways.
fn put_ways(
    rooted: &Rooted,
    soles: &[LinkNo],
    targets: &[NodeNo],
    aims: &mut [NodeNo],
    marks: &mut [bool],
)
    requires rooted { IsRooted rooted.now }
    requires soles { AreSoles rooted.now.graph.now (directions_by rooted.now) soles.now }
    requires within { (j t : ℕ) → slice_get targets.now j ≡ Some t → IsNode rooted.now t }
    requires room { length aims.old ≡ length rooted.now.graph.now.ids * length targets.now }
    requires a_mark_each { length marks.old ≡ length rooted.now.graph.now.ids }
    ensures room { length aims.new ≡ length aims.old }
    ensures a_mark_each { length marks.new ≡ length rooted.now.graph.now.ids }
    ensures aims { AreBlockAims rooted.now.graph.now rooted.now.root (directions_by rooted.now) targets.now aims.new marks.new }
{
    let width = targets.len();
    put_heads(rooted.graph, rooted.directed, width, aims);
    marks.fill(false);
    for at in 0..width {
        let to = Target {
            node: targets[at],
            at,
        };
        put_way(rooted, soles, to, width, aims, marks);
    }
}

/// The blocks of the nodes on the way from a destination to the root aim at these, at its place; those of more links are marked.
fn put_way(
    rooted: &Rooted,
    soles: &[LinkNo],
    to: Target,
    width: usize,
    aims: &mut [NodeNo],
    marks: &mut [bool],
)
    requires rooted { IsRooted rooted.now }
    requires soles { AreSoles rooted.now.graph.now (directions_by rooted.now) soles.now }
    requires to { IsNode rooted.now to.node }
    requires place { to.at < width }
    requires room { length aims.old ≡ length rooted.now.graph.now.ids * width }
    requires a_mark_each { length marks.old ≡ length rooted.now.graph.now.ids }
    ensures room { length aims.new ≡ length aims.old }
    ensures a_mark_each { length marks.new ≡ length rooted.now.graph.now.ids }
    ensures way { ((y : ℕ) → IsNode rooted.now y
        → aim_at aims.old width to.at ((directions_by rooted.now).block y) ≡ (directions_by rooted.now).head y)
        → AreWayAims rooted.now.graph.now rooted.now.root (directions_by rooted.now) to.node (aim_at aims.new width to.at) marks.new }
    ensures others { (i k : ℕ) → i < width → i ≢ to.at
        → aim_at aims.new width i k ≡ aim_at aims.old width i k }
    ensures stay { (k : ℕ) → slice_get marks.old k ≡ Some true → slice_get marks.new k ≡ Some true }
{
    let mut c = to.node;
    while c != rooted.root {
        let place = rooted.place(c);
        let at = place.block.get() as usize * width;
        aims[at + to.at] = c;
        mark(place.block, soles[c.get() as usize], marks);
        c = place.head;
    }
}

/// Puts for each node the node below it on the way from `to` to the root.
fn put_below(rooted: &Rooted, to: NodeNo, below: &mut [Option<NodeNo>])
    requires rooted { IsRooted rooted.now }
    requires to { IsNode rooted.now to }
    requires one_each { length below.old ≡ length rooted.now.graph.now.ids }
    ensures { AreBelow rooted.now.graph.now rooted.now.root (directions_by rooted.now) to below.new }
{
    below.fill(None);
    let mut c = to;
    while c != rooted.root {
        let head = rooted.place(c).head;
        below[head.get() as usize] = Some(c);
        c = head;
    }
}
