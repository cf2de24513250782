//! A table's row, spelled as a line.

ghost use Rattle.std.specs.Prelude.{◌≡◌, ◌≤◌, ◌+◌, ◌++◌, IfOk, OnErr, length};
ghost use Rattle.mrt_report.specs.Lines.{arc_letters, color_words, primary_words, row_text, second_letters};

use crate::cells::{letter, tag_word};
use crate::row::{ArcRepairs, TableRow};
use mrt_graph::NoMemory;
use text_parts::{ShortText, push, push_node_text, put, put_hop};

/// A row's line: no more bytes than these.
type RowLine = ShortText<192>;

/// Puts a row's line at the end of a text.
///
/// # Errors
///
/// [`NoMemory`] where there was none for the longer text. Then the text is as it was.
pub fn push_row(text: &mut Vec<u8>, row: &TableRow) -> Result<(), NoMemory>
    ensures added { IfOk result (λ _. text.new.items ≡ text.old.items ++ row_text row.now) }
    ensures err { OnErr result (text.new.items ≡ text.old.items) }
{
    push(text, row_line(row).bytes())
}

/// A row's line.
fn row_line(row: &TableRow) -> RowLine
    ensures { result ≡ row_text row.now }
{
    let mut line: RowLine = ShortText::new();
    push_node_text(&mut line, row.id);
    put(&mut line, b" ");
    put_colors(&mut line, row);
    put(&mut line, b" primary ");
    put_primary(&mut line, row);
    put(&mut line, b"\n");
    line
}

/// Puts the hops of both colors at the end of a line.
fn put_colors(line: &mut RowLine, row: &TableRow)
    requires { length line.old ≤ 20 }
    ensures added { line.new ≡ line.old ++ color_words row.now }
    ensures count { length line.new ≤ length line.old + 98 }
{
    put(line, tag_word(row.tag));
    put(line, b" blue ");
    put_hop(line, row.blue.far, row.blue.link_data);
    put(line, b" red ");
    put_hop(line, row.red.far, row.red.link_data);
}

/// Puts the primary's hop, and what repairs the failure of each of its elements, at the end of a line.
fn put_primary(line: &mut RowLine, row: &TableRow)
    requires { length line.old ≤ 127 }
    ensures added { line.new ≡ line.old ++ primary_words row.now }
    ensures count { length line.new ≤ length line.old + 51 }
{
    put_hop(line, row.primary.far, row.primary.link_data);
    put(line, b" repair ");
    put_letters(line, &row.first);
    put_second(line, &row.second);
}

/// Puts the letters of a second arc at the end of a line, where there is one.
fn put_second(line: &mut RowLine, second: &Option<ArcRepairs>)
    requires { length line.old ≤ 190 }
    ensures added { line.new ≡ line.old ++ second_letters second.now }
    ensures count { length line.new ≤ length line.old + 2 }
{
    match second {
        Some(repairs) => put_letters(line, repairs),
        None => {}
    }
}

/// Puts the two letters of an arc at the end of a line.
fn put_letters(line: &mut RowLine, repairs: &ArcRepairs)
    requires { length line.old ≤ 190 }
    ensures added { line.new ≡ line.old ++ arc_letters repairs.now }
    ensures count { length line.new ≤ length line.old + 2 }
{
    put(line, letter(repairs.link));
    put(line, letter(repairs.node));
}
