//! Numbers, addresses, lines and words of a text, names of nodes, parts of texts, and a text that is read line by line.

use crate::calls::Call;
use crate::told::{list, number, told};
use crate::told_bytes::{bytes_told, show, show_line};
use mrt_graph::{NoMemory, NodeId};
use parts_of_tests::Page;
use std::alloc::Global;
use text_parts::{
    LineError, NodeText, TakesLines, first_line, first_word, is_passed_over, push, push_count,
    push_hop, push_node, push_number, read_address, read_number, text_of,
};

/// What is read of a text.
pub fn put_read(alloc: Global, call: Call, words: &str, page: &mut Page) {
    let text = bytes_told(alloc, words, "text");
    match call {
        Call::Number => put_found(page, read_number(&text)),
        Call::Address => put_found(page, read_address(&text)),
        Call::Lines => put_lines(page, &text),
        _ => put_rising(page, &text),
    }
}

/// The number or the address that a text is.
fn put_found(page: &mut Page, number: Option<u32>) {
    match number {
        Some(number) => page.number("", u64::from(number)),
        None => page.put("none"),
    }
    page.end();
}

/// The lines of a text, whether each is passed over, and its words.
fn put_lines(page: &mut Page, text: &[u8]) {
    let mut rest = text;
    for _ in 0..100 {
        let Some((line, behind)) = first_line(rest) else {
            return page.put("no line more\n");
        };
        put_words(page, line);
        rest = behind;
    }
}

fn put_words(page: &mut Page, line: &[u8]) {
    page.put("line=");
    show(page, line);
    page.put(if is_passed_over(line) {
        " passed over, words="
    } else {
        " words="
    });
    let mut rest = line;
    let mut before = "";
    for _ in 0..100 {
        let Some((word, behind)) = first_word(rest) else {
            break;
        };
        page.put(before);
        show(page, word);
        rest = behind;
        before = ",";
    }
    page.end();
}

/// The identifier that a text tells, as `router:1.2.3.4`.
fn id_told(text: &str) -> NodeId {
    let (kind, number) = text.split_once(':').unwrap_or(("", text));
    match kind {
        "network" => NodeId::network(address_told(number)),
        _ => NodeId::router(address_told(number)),
    }
}

/// The address that a text tells.
fn address_told(text: &str) -> u32 {
    read_address(text.as_bytes()).unwrap_or(0)
}

/// The name of a node, and the address that this name is.
pub fn put_node_text(words: &str, page: &mut Page) {
    let text = NodeText::new(id_told(list(words, "id")));
    show(page, text.bytes());
    page.put(" address=");
    put_found(page, read_address(text.bytes()));
}

/// Each identifier beside the next one.
pub fn put_node_order(words: &str, page: &mut Page) {
    let mut last = None;
    for text in list(words, "ids").split_terminator(',') {
        let id = id_told(text);
        if let Some(before) = last {
            page.put(order_word(before, id));
        }
        last = Some(id);
    }
}

fn order_word(before: NodeId, id: NodeId) -> &'static str {
    if before < id {
        return "below\n";
    }
    if before == id {
        return "the same\n";
    }
    "above\n"
}

/// A text with a part put at its end.
pub fn put_pushed(alloc: Global, words: &str, page: &mut Page) {
    let mut text = bytes_told(alloc, words, "to");
    let more = bytes_told(alloc, words, "bytes");
    let _ = push_part(words, &mut text, &more);
    show_line(page, &text);
}

fn push_part(words: &str, text: &mut Vec<u8>, more: &[u8]) -> Result<(), NoMemory> {
    if let Some(count) = number(words, "count") {
        return push_count(text, count);
    }
    if let Some(id) = told(words, "node") {
        return push_node(text, id_told(id));
    }
    if let Some(far) = told(words, "hop") {
        return push_hop(text, id_told(far), address_told(list(words, "data")));
    }
    match told(words, "number") {
        Some(number) => push_number(text, more, number.parse().unwrap_or(0)),
        None => push(text, more),
    }
}

/// The first byte of the last line, 0 where there was none. Each line begins with a greater byte than the one before it, and
/// a text ends with a line that begins with `c` or a greater one.
#[derive(Drop)]
struct Rising {
    byte: u8,
}

impl TakesLines for Rising {
    ghost use Rattle.std.specs.Prelude.{Ok, Err, nat_lt, slice_get, if◌then◌else◌};
    ghost use Rattle.std.specs.Option.{option_map_or};

    /// The first byte of the last line.
    type Text = u8;

    /// The first byte of a line with a fault, or of the last line.
    type Fault = u8;

    ghost rule = { record {
      start = record { byte = 0 };
      after = λ last line. option_map_or
          (λ byte. if nat_lt last.byte byte then Ok (record { byte = byte }) else Err byte) (slice_get line 0) (Err 0);
      ends = λ last. if nat_lt last.byte 99 then Err last.byte else Ok last.byte;
    } };

    fn take(&mut self, line: &[u8]) -> Result<Result<(), u8>, NoMemory> {
        let Some(byte) = line.get(0).copied() else {
            return Ok(Err(0));
        };
        if self.byte < byte {
            self.byte = byte;
            return Ok(Ok(()));
        }
        Ok(Err(byte))
    }

    fn end(self) -> Result<u8, u8> {
        if self.byte < b'c' {
            return Err(self.byte);
        }
        Ok(self.byte)
    }
}

/// What a text of at most a thousand bytes says whose lines rise.
fn put_rising(page: &mut Page, text: &[u8]) {
    match text_of(&text[..text.len().min(1000)], Rising { byte: 0 }) {
        Ok(byte) => show_line(page, &[byte]),
        Err(LineError::Fault { line, fault }) => {
            page.number("fault in line ", u64::from(line));
            page.put(": ");
            show_line(page, &[fault]);
        }
        Err(LineError::NoMemory) => {}
    }
}
