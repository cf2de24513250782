//! What holds of the tables of each router.

ghost use Rattle.std.specs.Prelude.{◌≡◌, ◌≢◌, ◌<◌, ◌++◌, ℕ, List, IsSome, length};
ghost use Rattle.std.specs.List.{AllZip, concat};
ghost use Rattle.area_graph.specs.{AreaInvariant.IsArea, Fits.Fits};
ghost use Rattle.mrt_graph.specs.{Certificate.row_of, GraphInvariant.IsTopology, Hop.color_hop, Topology.Topology, declared.cert.Color.Color};
ghost use Rattle.mrt_report.specs.{ByColumn.IsLineByColumn, Rows.IsLinkHop, TableParts.AreItsPrimaries, TableParts.TableParts};
ghost use Rattle.mrt_report.specs.{TableText.IsHead, TableText.IsTableRow, TableText.IsTableText, TableText.others};
ghost use Rattle.mrt_report.specs.{declared.row.HopTo.HopTo, declared.row.TableRow.TableRow};

use primary_alt::one_alternate_each;

/// A law: the first line, and after it the lines by ascending identifier, each by the rows for its destination, are the
/// router's table.
pub fn lines_make_the_table()
    ensures { (parts : TableParts) (root : ℕ) (head : List ℕ) (lines : List (List ℕ))
        → IsHead parts.island root parts.source head
        → AllZip (IsLineByColumn parts) (others (length parts.island.ids) parts.source) lines
        → IsTableText parts root (head ++ concat lines) }
{}

/// Laws: a router has one table at most; where what it is made from belongs together, and from each node both colors lead on to
/// each other one, it has one.
pub fn one_table_each()
    ensures some { (parts : TableParts) (root : ℕ) → IsArea parts.area → IsTopology parts.island
        → Fits parts.area parts.island parts.link_of
        → ((color : Color) (s t : ℕ) → s < length parts.island.ids → t < length parts.island.ids → s ≢ t
        → IsSome (color_hop parts.island.links (row_of parts.cert) color t s))
        → AreItsPrimaries parts.area parts.island parts.source parts.primaries → root < length parts.island.ids
        → (text : List ℕ) × IsTableText parts root text }
    ensures one { (parts : TableParts) (root : ℕ) (text other : List ℕ) → IsArea parts.area
        → IsTopology parts.island → IsTableText parts root text → IsTableText parts root other
        → text ≡ other }
{
    one_alternate_each();
}

/// Laws: on each destination a router has one row at most, and over each link a node has one hop at most.
pub fn one_row_each()
    ensures row { (parts : TableParts) (to : ℕ) (row other : TableRow) → IsArea parts.area → IsTopology parts.island
        → IsTableRow parts to row → IsTableRow parts to other → row ≡ other }
    ensures hop { (g : Topology) (s link : ℕ) (hop other : HopTo) → IsLinkHop g s link hop → IsLinkHop g s link other
        → hop ≡ other }
{
    one_alternate_each();
}
