//! What holds of the lines of each table.

ghost use Rattle.std.specs.Prelude.{◌≡◌, ◌↔◌, ℕ, List, Option};
ghost use Rattle.area_graph.specs.Parts.{AreaParts};
ghost use Rattle.mrt_graph.specs.{GraphInvariant.IsTopology, Rows.Rows, Topology.Topology};
ghost use Rattle.primary_alt.specs.declared.shortest.Primary.{Primary};
ghost use Rattle.mrt_report.specs.{LineParts.LineParts, LineParts.line_parts, Lines.IsLine};

use primary_alt::one_alternate_each;

/// A law: a router has one line at most on a destination, by these rows and this primary.
pub fn one_line_each()
    ensures { (parts : LineParts) (to : ℕ) (primary : Primary) (text other : List ℕ)
        → IsTopology parts.island → IsLine parts to primary text → IsLine parts to primary other
        → text ≡ other }
{
    one_alternate_each();
}

/// A law: where all nodes have the same rows for a destination, the router has the same line on it.
pub fn lines_by_the_rows_for_one_destination()
    ensures { (area : AreaParts) (island : Topology) (link_of : List (Option ℕ))
        (rows others : Rows) (source to : ℕ) → ((s : ℕ) → rows s to ≡ others s to)
        → (primary : Primary) (text : List ℕ)
        → IsLine (line_parts area island link_of rows source) to primary text
        ↔ IsLine (line_parts area island link_of others source) to primary text }
{}
