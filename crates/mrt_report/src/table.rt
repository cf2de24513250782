//! The lines of a router's table, one destination at a time.

ghost use Rattle.std.specs.Prelude.{◌≡◌, ◌≢◌, ◌<◌, ℕ, IfOk, OnErr, length};
ghost use Rattle.area_graph.specs.Fits.{Fits};
ghost use Rattle.mrt_graph.specs.{GraphInvariant.IsNetwork, Sound.SoundFor};
ghost use Rattle.text_parts.specs.steps.Adds.{Adds};
ghost use Rattle.mrt_report.specs.{LineParts.IsPrimaryOf, LineParts.line_parts, Lines.IsLine, Rows.IsRow, TableText.IsHead};

use crate::destination_row::row_of;
use crate::line::push_row;
use crate::parts::Parts;
use crate::row::TableRow;
use area_graph::Area;
use mrt_graph::{Graph, LinkNo, NoMemory, NodeNo, RowsOf};
use primary_alt::Primary;
use std::alloc::Global;
use text_parts::{push, push_count, push_node};

/// No line of a table has more bytes.
const LONGEST_LINE: usize = 192;

/// The first line of a router's table: the router, the GADAG root, and how many nodes and links the island has.
///
/// # Errors
///
/// [`NoMemory`] where there was none for the line.
pub fn table_head(
    alloc: Global,
    g: &Graph,
    root: NodeNo,
    source: NodeNo,
) -> Result<Vec<u8>, NoMemory>
    requires root { root < length g.now.ids }
    requires root_router { ¬ IsNetwork g.now.ids root }
    requires source { source < length g.now.ids }
    requires router { ¬ IsNetwork g.now.ids source }
    ensures { IfOk result (λ text. IsHead g.now root source text.items) }
{
    let mut text = Vec::with_capacity(alloc, LONGEST_LINE)?;
    push_head(&mut text, g, root, source)?;
    Ok(text)
}

/// What a router installs for one other node of its island: the two colors' next hops, the primary, and which color
/// repairs it after which failure. It is made by the rows of all nodes for this one, wherever they stand, of which it reads
/// those on the two walks, no more than are needed.
///
/// For callers of the crate; `table` puts the same line at the end of a text.
///
/// It follows each color's walk at most once, so it takes time in proportion to the nodes and the router's interfaces at
/// worst, and no memory beside the line.
///
/// # Errors
///
/// [`NoMemory`] where there was none for the line.
pub fn table_line<R: RowsOf>(
    alloc: Global,
    area: &Area,
    island: &Graph,
    link_of: &[Option<LinkNo>],
    rows: &R,
    source: NodeNo,
    to: NodeNo,
    prim: Primary,
) -> Result<Vec<u8>, NoMemory>
    requires fits { Fits area.now island.now link_of.now }
    requires sound { (s : ℕ) → s < length island.now.ids → s ≢ to
        → SoundFor island.now.links (length island.now.ids) (R.rows rows.now) s to }
    requires source { source < length island.now.ids }
    requires router { ¬ IsNetwork island.now.ids source }
    requires target { to < length island.now.ids }
    requires different { source ≢ to }
    requires primary { IsPrimaryOf area.now island.now source to prim }
    ensures { IfOk result (λ text.
        IsLine (line_parts area.now island.now link_of.now (R.rows rows.now) source)
        to prim text.items) }
{
    let mut text = Vec::with_capacity(alloc, LONGEST_LINE)?;
    push_table_line(&mut text, area, island, link_of, rows, source, to, prim)?;
    Ok(text)
}

/// Puts the same line at the end of a text. Where the text has room for it, it takes no memory.
///
/// # Errors
///
/// [`NoMemory`] where there was none for the longer text. Then the text is as it was.
pub fn push_table_line<R: RowsOf>(
    text: &mut Vec<u8>,
    area: &Area,
    island: &Graph,
    link_of: &[Option<LinkNo>],
    rows: &R,
    source: NodeNo,
    to: NodeNo,
    prim: Primary,
) -> Result<(), NoMemory>
    requires fits { Fits area.now island.now link_of.now }
    requires sound { (s : ℕ) → s < length island.now.ids → s ≢ to
        → SoundFor island.now.links (length island.now.ids) (R.rows rows.now) s to }
    requires source { source < length island.now.ids }
    requires router { ¬ IsNetwork island.now.ids source }
    requires target { to < length island.now.ids }
    requires different { source ≢ to }
    requires primary { IsPrimaryOf area.now island.now source to prim }
    ensures added { IfOk result (λ _.
        Adds
        (IsLine (line_parts area.now island.now link_of.now (R.rows rows.now) source) to prim)
        text.old.items text.new.items) }
    ensures err { OnErr result (text.new.items ≡ text.old.items) }
{
    let row = table_row(area, island, link_of, rows, source, to, prim);
    push_row(text, &row)
}

/// The row that this line spells. It takes no memory.
pub fn table_row<R: RowsOf>(
    area: &Area,
    island: &Graph,
    link_of: &[Option<LinkNo>],
    rows: &R,
    source: NodeNo,
    to: NodeNo,
    prim: Primary,
) -> TableRow
    requires fits { Fits area.now island.now link_of.now }
    requires sound { (s : ℕ) → s < length island.now.ids → s ≢ to
        → SoundFor island.now.links (length island.now.ids) (R.rows rows.now) s to }
    requires source { source < length island.now.ids }
    requires router { ¬ IsNetwork island.now.ids source }
    requires target { to < length island.now.ids }
    requires different { source ≢ to }
    requires primary { IsPrimaryOf area.now island.now source to prim }
    ensures { IsRow (line_parts area.now island.now link_of.now (R.rows rows.now) source) to prim result }
{
    // what each area and each graph keeps is told by reading it
    let _nodes = area.count();
    let _count = island.node_count();
    let parts = Parts {
        area,
        island,
        link_of,
        rows,
        source,
        to,
        primary: prim,
    };
    row_of(&parts)
}

/// Puts the first line at the end of a text.
fn push_head(text: &mut Vec<u8>, g: &Graph, root: NodeNo, source: NodeNo) -> Result<(), NoMemory>
    requires root { root < length g.now.ids }
    requires source { source < length g.now.ids }
    ensures { IfOk result (λ _. Adds (IsHead g.now root source) text.old.items text.new.items) }
{
    push(text, b"router ")?;
    push_node(text, g.id(source))?;
    push(text, b" root ")?;
    push_node(text, g.id(root))?;
    push(text, b" nodes ")?;
    push_count(text, g.node_count())?;
    push(text, b" links ")?;
    push_count(text, g.link_count())?;
    push(text, b"\n")?;
    Ok(())
}
