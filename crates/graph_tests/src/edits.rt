//! Edits of a certificate file in words: `22:1`, a place and the byte that is put there; `root:0.0.0.9`, `number:1:0.0.0.9`,
//! `kind:1:network`, `node:1:2.2.0` with order, head and block, `link:2:0.2.0.closing` with both nodes, block and role, and
//! `row:0.1:0.1.Sole`, the row of 0 for 1, with both links and tag. At its end a file grows by one.

use crate::told::two;

/// The words of kinds, roles and tags, and their bytes; all others have 0.
const WORDS: [(&str, u8); 10] = [
    ("router", 1),
    ("sole", 1),
    ("Head", 1),
    ("network", 2),
    ("closing", 2),
    ("Top", 2),
    ("Below", 3),
    ("Above", 4),
    ("Unordered", 5),
    ("Carried", 6),
];

/// Puts what edits tell.
pub fn put_edits(bytes: &mut Vec<u8>, edits: &str) {
    for text in edits.split_terminator(',') {
        edit(bytes, text);
    }
}

/// Puts what an edit tells in its place in a file of version 1: numbers of two bytes where nodes, links and rows have
/// them, and else of one, as words are.
fn edit(bytes: &mut Vec<u8>, text: &str) {
    let (place, values) = text.rsplit_once(':').unwrap_or(("", ""));
    let (what, which) = place.split_once(':').unwrap_or((place, ""));
    let is_wide = matches!(what, "node" | "link" | "row");
    let mut at = place_of(counts(bytes), what, which);
    for value in values.split_terminator('.') {
        at = put_value(bytes, at, value, is_wide);
    }
}

/// Puts a number or the byte of a word in its place, and tells the place behind it.
fn put_value(bytes: &mut Vec<u8>, at: usize, value: &str, is_wide: bool) -> usize {
    let Ok(number) = value.parse::<u16>() else {
        put_at(bytes, at, word_value(value));
        return at.wrapping_add(1);
    };
    let [high, low] = number.to_be_bytes();
    if !is_wide {
        put_at(bytes, at, low);
        return at.wrapping_add(1);
    }
    put_at(bytes, at, high);
    put_at(bytes, at.wrapping_add(1), low);
    at.wrapping_add(2)
}

/// The counts of nodes and links.
fn counts(bytes: &[u8]) -> (u16, u16) {
    match bytes {
        [_, _, _, _, _, _, nodes, nodes_low, links, links_low, ..] => (
            u16::from_be_bytes([*nodes, *nodes_low]),
            u16::from_be_bytes([*links, *links_low]),
        ),
        _ => (0, 0),
    }
}

/// Where the bytes stand that an edit speaks of, by the counts of nodes and links.
fn place_of((nodes, links): (u16, u16), what: &str, which: &str) -> usize {
    let number = usize::from(which.parse::<u16>().unwrap_or(0));
    let first_link = 14 + 11 * usize::from(nodes);
    match what {
        "root" => 10,
        "kind" => 14 + 11 * number,
        "number" => 15 + 11 * number,
        "node" => 19 + 11 * number,
        "link" => first_link + 7 * number,
        "row" => (first_link + 7 * usize::from(links)).wrapping_add(row_told(nodes, which)),
        _ => usize::from(what.parse::<u16>().unwrap_or(0)),
    }
}

/// How many bytes of rows stand before that of one node for another.
fn row_told(nodes: u16, which: &str) -> usize {
    let (s, t) = two(which, '.').unwrap_or((0, 1));
    let column = if t < s { t } else { t.saturating_sub(1) };
    usize::from(s)
        .wrapping_mul(usize::from(nodes.saturating_sub(1)))
        .wrapping_add(usize::from(column))
        .wrapping_mul(5)
}

/// The byte of a kind, a role or a tag.
fn word_value(word: &str) -> u8 {
    for (name, value) in &WORDS {
        if *name == word {
            return *value;
        }
    }
    0
}

/// Puts a byte in its place. At the end it is one more.
fn put_at(bytes: &mut Vec<u8>, place: usize, byte: u8) {
    if place < bytes.len() {
        bytes[place] = byte;
    } else {
        let _ = bytes.push(byte);
    }
}
