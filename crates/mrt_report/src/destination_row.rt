//! A table's row for one destination.

ghost use Rattle.std.specs.Prelude.{◌≡◌, ◌<◌, ◌==◌, IsSome, length};
ghost use Rattle.std.specs.{List.find, Option.option_map};
ghost use Rattle.area_graph.specs.AreaInvariant.{IsArea};
ghost use Rattle.mrt_graph.specs.{GraphInvariant.IsTopology, Leads.leads};
ghost use Rattle.mrt_report.specs.Rows.{IsArcHop, IsEndOn, IsLinkHop, IsRow};
ghost use Rattle.mrt_report.specs.steps.LineParts.{AreAllParts};
ghost use Rattle.mrt_report.specs.steps.Viewed.{viewed};

use crate::parts::Parts;
use crate::repairs::repairs_of;
use crate::row::{HopTo, TableRow};
use area_graph::{ArcNo, Area};
use mrt_graph::{End, Graph, LinkNo, NodeNo, RowsOf};

/// The row for a destination. It takes no memory.
pub fn row_of<R: RowsOf>(parts: &Parts<'_, R>) -> TableRow
    requires { AreAllParts (viewed R.rows parts.now) parts.now.to parts.now.primary }
    ensures { IsRow (viewed R.rows parts.now) parts.now.to parts.now.primary result }
{
    let row = parts.rows.row_for(parts.source, parts.to);
    let repairs = repairs_of(parts);
    TableRow {
        id: parts.island.id(parts.to),
        tag: row.tag,
        blue: link_hop(parts.island, parts.source, row.blue),
        red: link_hop(parts.island, parts.source, row.red),
        primary: arc_hop(parts.area, parts.primary.first),
        first: repairs.first,
        second: repairs.second,
    }
}

/// The hop of a node over a link of the island that touches it.
pub fn link_hop(g: &Graph, source: NodeNo, link: LinkNo) -> HopTo
    requires kept { IsTopology g.now }
    requires within { source < length g.now.ids }
    requires touches { IsSome (leads g.now.links link source) }
    ensures { IsLinkHop g.now source link result }
{
    let end = end_on(g, source, link);
    HopTo {
        far: g.id(end.to),
        link_data: end.link_data,
    }
}

/// The end of a node on a link that touches it.
fn end_on(g: &Graph, s: NodeNo, link: LinkNo) -> End
    requires kept { IsTopology g.now }
    requires within { s < length g.now.ids }
    requires touches { IsSome (leads g.now.links link s) }
    ensures is { IsEndOn g.now s link result }
    ensures to { result.to < length g.now.ids }
{
    first_on(g.ends(s), link).unwrap()
}

/// The first of these ends on a link.
fn first_on(ends: &[End], link: LinkNo) -> Option<End>
    ensures { result ≡ option_map (λ end. end) (find (λ end. end.link == link) ends.now) }
{
    let end = ends.iter().find(|end| end.link == link)?;
    Some(*end)
}

/// The hop over an arc.
fn arc_hop(area: &Area, number: ArcNo) -> HopTo
    requires kept { IsArea area.now }
    requires within { number < length area.now.arcs }
    ensures { IsArcHop area.now number result }
{
    let arc = area.arc(number);
    HopTo {
        far: area.id(arc.to),
        link_data: arc.link_data,
    }
}
