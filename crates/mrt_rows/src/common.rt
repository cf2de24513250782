//! What the rows of all nodes have in common.

ghost use Rattle.std.specs.Prelude.{◌≡◌, ◌≢◌, ◌<◌, ℕ, IfOk, Some, false, length, slice_get, true};
ghost use Rattle.mrt_graph.specs.{declared.gadag.Place.Place, Related.IsRelation};
ghost use Rattle.block_spf.specs.declared.reach.Dir.TheVariants.{Down, Up};
ghost use Rattle.block_spf.specs.{FirstLink.no_link, Turns.AreTurns};
ghost use Rattle.mrt_rows.specs.Common.{AreCommon, AreHomes};
ghost use Rattle.mrt_rows.specs.TilesAimed.{AreTiles};
ghost use Rattle.mrt_rows.specs.steps.ListedDirections.{IsNode, IsRooted, directions_by};
ghost use Rattle.mrt_rows.specs.steps.Source.{IsSourceBy};
ghost use Rattle.mrt_rows.specs.NearOf.{AreSoles, IsSoleOf};
ghost use Rattle.mrt_rows.specs.steps.NearOf.{IsNearRow, IsPlaceOf};
ghost use Rattle.mrt_rows.specs.Put.{AreFirstLinks, AreHeadsMarked, AreInCommonBlockOfMoreLinks};

use crate::directed::Rooted;
use crate::row_over::{FirstLinks, Source, end_row, member_row, row_home};
use crate::tiles::Tiles;
use block_spf::{Dir, NO_LINK, is_sole, nodes_by_turn, put_heads};
use mrt_graph::{LinkNo, NoMemory, NodeNo, Relation, Row, Tag};
use std::alloc::Global;

/// The nodes by their turns, marks on the root and on heads of blocks of more than one link, the sole links, and tiles of width
/// one in which each block aims at its head.
pub struct Common {
    pub by_order: Vec<NodeNo>,
    pub against_order: Vec<NodeNo>,
    pub heads: Vec<bool>,
    pub soles: Vec<LinkNo>,
    pub homes: Tiles,
}

impl Drop for Common {
    fn drop(self) {
        let Self {
            by_order: _,
            against_order: _,
            heads: _,
            soles: _,
            homes: _,
        } = self;
    }
}

impl Common {
    /// What they have in common.
    ///
    /// It takes time in proportion to the nodes and the links.
    pub fn new(alloc: Global, rooted: &Rooted) -> Result<Common, NoMemory>
        requires { IsRooted rooted.now }
        ensures { IfOk result (AreCommon rooted.now.graph.now (directions_by rooted.now)) }
    {
        let count = rooted.graph.node_count() as usize;
        let by_order = nodes_by_turn(alloc, rooted.graph, rooted.directed, Dir::Up)?;
        let against_order = nodes_by_turn(alloc, rooted.graph, rooted.directed, Dir::Down)?;
        let mut soles = vec![in alloc; LinkNo::new(NO_LINK); count]?;
        let mut heads = vec![in alloc; false; count]?;
        take_soles(rooted, &mut soles, &mut heads);
        let homes = homes_of(alloc, rooted, &by_order, &against_order, &heads)?;
        Ok(Common {
            by_order,
            against_order,
            heads,
            soles,
            homes,
        })
    }

    /// Node s, with what its rows are made from.
    pub fn source(&self, rooted: &Rooted, s: NodeNo) -> Source
        requires rooted { IsRooted rooted.now }
        requires common { AreCommon rooted.now.graph.now (directions_by rooted.now) self.now }
        requires node { IsNode rooted.now s }
        ensures node { result.node ≡ s }
        ensures source { IsSourceBy rooted.now.graph.now (directions_by rooted.now) result }
    {
        let at = s.get() as usize;
        Source {
            node: s,
            place: rooted.place(s),
            sole: self.soles[at],
            home: self.homes.links_of(s, 0),
        }
    }

    /// The row of a source for t, by what this is to it and its first links to it. `None` where they have no block in common.
    pub fn row(
        &self,
        rooted: &Rooted,
        source: &Source,
        t: NodeNo,
        relation: Relation,
        links: &FirstLinks,
    ) -> Option<Row>
        requires rooted { IsRooted rooted.now }
        requires common { AreCommon rooted.now.graph.now (directions_by rooted.now) self.now }
        requires source { IsSourceBy rooted.now.graph.now (directions_by rooted.now) source.now }
        requires target { IsNode rooted.now t }
        requires two { source.now.node ≢ t }
        requires relation { (there : Place) × IsPlaceOf (directions_by rooted.now) t there
            × IsRelation source.now.node source.now.place t there relation }
        requires links { AreFirstLinks rooted.now.graph.now (directions_by rooted.now) source.now.node t links.now }
        ensures { IsNearRow rooted.now.graph.now rooted.now.root (directions_by rooted.now) source.now.node t result }
    {
        match relation {
            Relation::OneBlock => Some(member_row(links, &source.home)),
            Relation::ToHead => Some(row_home(source)),
            Relation::FromHead => Some(end_row(self.soles[t.get() as usize], links, Tag::Top)),
            Relation::Apart => None,
        }
    }

    /// Whether s may lie in a block of more than one link, which is its own or one that it heads; so for the root.
    pub fn is_among_more(&self, rooted: &Rooted, s: NodeNo) -> bool
        requires common { AreCommon rooted.now.graph.now (directions_by rooted.now) self.now }
        requires node { IsNode rooted.now s }
        ensures { result ≡ false → (t : ℕ) → IsNode rooted.now t
            → ¬ AreInCommonBlockOfMoreLinks rooted.now.graph.now (directions_by rooted.now) s t }
    {
        let at = s.get() as usize;
        if self.heads[at] {
            return true;
        }
        self.soles[at].get() == NO_LINK
    }
}

/// Tiles of width one in which each block aims at its head. It is given the nodes by their turns, and marks on heads of blocks of
/// more than one link.
fn homes_of(
    alloc: Global,
    rooted: &Rooted,
    by_order: &[NodeNo],
    against_order: &[NodeNo],
    heads: &[bool],
) -> Result<Tiles, NoMemory>
    requires rooted { IsRooted rooted.now }
    requires by_order { AreTurns rooted.now.graph.now (directions_by rooted.now) Up by_order.now }
    requires against_order { AreTurns rooted.now.graph.now (directions_by rooted.now) Down against_order.now }
    requires a_mark_each { length heads.now ≡ length rooted.now.graph.now.ids }
    requires heads { AreHeadsMarked rooted.now.graph.now (directions_by rooted.now) heads.now }
    ensures one_place { IfOk result (AreTiles rooted.now.graph.now 1) }
    ensures homes { IfOk result (AreHomes rooted.now.graph.now (directions_by rooted.now)) }
{
    let mut homes = Tiles::new(alloc, rooted, 1)?;
    put_heads(rooted.graph, rooted.directed, 1, &mut homes.aims);
    homes.wanted.fill(true);
    homes.aim(rooted, by_order, against_order, heads);
    Ok(homes)
}

/// Takes of each node the one link of its block, where that has no other, and else marks its head. The root is its own.
fn take_soles(rooted: &Rooted, soles: &mut [LinkNo], heads: &mut [bool])
    requires rooted { IsRooted rooted.now }
    requires a_sole_each { length soles.old ≡ length rooted.now.graph.now.ids }
    requires a_mark_each { length heads.old ≡ length rooted.now.graph.now.ids }
    ensures soles { AreSoles rooted.now.graph.now (directions_by rooted.now) soles.new }
    ensures a_mark_each { length heads.new ≡ length rooted.now.graph.now.ids }
    ensures heads { AreHeadsMarked rooted.now.graph.now (directions_by rooted.now) heads.new }
{
    for n in 0..rooted.graph.node_count() {
        let v = NodeNo::new(n);
        let sole = sole_of(rooted, v);
        soles[n as usize] = sole;
        mark(rooted.place(v).head, sole, heads);
    }
}

/// The one link of the block of node v; none where that has more, or v is the root.
fn sole_of(rooted: &Rooted, v: NodeNo) -> LinkNo
    requires rooted { IsRooted rooted.now }
    requires node { IsNode rooted.now v }
    ensures { IsSoleOf rooted.now.graph.now (directions_by rooted.now) v result }
{
    let block = rooted.place(v).block;
    for end in rooted.graph.ends(v) {
        let mark = rooted.directed.mark(end.link);
        if is_sole(mark.role) && mark.block == block {
            return end.link;
        }
    }
    LinkNo::new(NO_LINK)
}

/// Marks a node or a block, where there is no sole link.
pub fn mark(v: NodeNo, sole: LinkNo, marks: &mut [bool])
    requires { v < length marks.old }
    ensures one_each { length marks.new ≡ length marks.old }
    ensures marked { sole ≡ no_link → slice_get marks.new v ≡ Some true }
    ensures stay { (k : ℕ) → slice_get marks.old k ≡ Some true → slice_get marks.new k ≡ Some true }
{
    if sole.get() == NO_LINK {
        marks[v.get() as usize] = true;
    }
}
