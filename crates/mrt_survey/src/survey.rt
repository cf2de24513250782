//! The text that sums up a graph and its certificate.

ghost use Rattle.std.specs.Prelude.{◌≡◌, ◌++◌, ◌<◌, IfOk, length};
ghost use Rattle.mrt_graph.specs.{AcceptedFor.IsAcceptedAt};
ghost use Rattle.mrt_survey.specs.SurveyText.{IsSurveyText, block_line, island_line, row_line, sum_line};

use crate::counts::{blocks_with_links, separating_nodes, sole_links};
use crate::tally::{Tally, tally_of};
use mrt_graph::{Cert, Graph, NoMemory, NodeId, NodeNo};
use std::alloc::Global;
use text_parts::{push, push_node, push_number};

/// As many bytes as a survey has at most.
const LONGEST: usize = 320;

/// What a network comes to: its nodes, links and root; how many blocks have a link, how many links are the only ones of
/// their blocks, and how many nodes separate two others; how many rows are between nodes with a common block, and how
/// many are carried; and the sums of the blue and of the red link numbers of all rows.
///
/// The certificate is one that is accepted for the graph and the root. `number` is what the network was made from.
///
/// It takes time in proportion to nodes, links and rows: it goes once over the rows, and takes memory for the text and
/// for a mark for each node.
///
/// # Errors
///
/// [`NoMemory`] where there was none for the text and the marks.
pub fn survey_text(
    alloc: Global,
    number: u32,
    g: &Graph,
    root: NodeNo,
    c: &Cert,
) -> Result<Vec<u8>, NoMemory>
    requires { IsAcceptedAt g.now root c.now }
    ensures { IfOk result (λ text. IsSurveyText number g.now root c.now text.items) }
{
    // what each certificate keeps is told by reading it
    let _nodes = c.node_count();
    let blocks = blocks_with_links(alloc, c)?;
    let separating = separating_nodes(alloc, g, root, c)?;
    let tally = tally_of(c);
    let mut text = Vec::with_capacity(alloc, LONGEST)?;
    push_island(&mut text, number, g, g.id(root))?;
    push_blocks(&mut text, blocks, sole_links(c.links()), separating)?;
    push_rows(&mut text, tally)?;
    push_sums(&mut text, tally)?;
    Ok(text)
}

/// Puts the first line at the end of a text.
fn push_island(text: &mut Vec<u8>, number: u32, g: &Graph, root: NodeId) -> Result<(), NoMemory>
    ensures { IfOk result (λ _. text.new.items ≡ text.old.items
        ++ island_line number (length g.now.ids) (length g.now.links) root) }
{
    push_number(text, b"survey ", u64::from(number))?;
    push_number(text, b" nodes ", u64::from(g.node_count()))?;
    push_number(text, b" links ", u64::from(g.link_count()))?;
    push(text, b" root ")?;
    push_node(text, root)?;
    push(text, b"\n")?;
    Ok(())
}

/// Puts the line on blocks at the end of a text.
fn push_blocks(text: &mut Vec<u8>, blocks: u16, sole: u16, separating: u16) -> Result<(), NoMemory>
    ensures { IfOk result (λ _. text.new.items ≡ text.old.items
        ++ block_line blocks sole separating) }
{
    push_number(text, b"blocks ", u64::from(blocks))?;
    push_number(text, b" sole ", u64::from(sole))?;
    push_number(text, b" separating ", u64::from(separating))?;
    push(text, b"\n")?;
    Ok(())
}

/// Puts the line on the kinds of rows at the end of a text.
fn push_rows(text: &mut Vec<u8>, tally: Tally) -> Result<(), NoMemory>
    ensures { IfOk result (λ _. text.new.items ≡ text.old.items
        ++ row_line tally.common tally.carried) }
{
    push_number(text, b"common ", u64::from(tally.common))?;
    push_number(text, b" carried ", u64::from(tally.carried))?;
    push(text, b"\n")?;
    Ok(())
}

/// Puts the line on the sums at the end of a text.
fn push_sums(text: &mut Vec<u8>, tally: Tally) -> Result<(), NoMemory>
    ensures { IfOk result (λ _. text.new.items ≡ text.old.items
        ++ sum_line tally.blue tally.red) }
{
    push_number(text, b"sums blue ", tally.blue)?;
    push_number(text, b" red ", tally.red)?;
    push(text, b"\n")?;
    Ok(())
}
