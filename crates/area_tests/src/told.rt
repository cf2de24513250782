//! What a row tells: files, numbers, addresses and short texts.

ghost use Rattle.std.specs.Prelude.{◌≤◌, length};

use mrt_graph::NodeId;
use parts_of_tests::{Page, cut};
use std::alloc::Global;
use text_parts::read_address;

/// The most bytes that are read of a file.
const MOST: usize = 8_388_608;

/// The front of bytes, as many as are read of a file.
pub fn front(bytes: &[u8]) -> &[u8]
    ensures { length result.now ≤ 8388608 }
{
    &bytes[..bytes.len().min(MOST)]
}

/// The front of a file of the row; there are no bytes where it has no such file.
pub fn file(files: &[Vec<u8>], place: usize) -> &[u8]
    ensures { length result.now ≤ 8388608 }
{
    match files.get(place) {
        Some(file) => front(file),
        None => &[],
    }
}

/// The words after the first ones.
pub fn after<'a>(words: &'a str, count: usize) -> &'a str {
    let mut rest = words;
    for _ in 0..count {
        let (_, behind) = cut(rest);
        rest = behind;
    }
    rest
}

/// The word at a place; an empty one where there is none.
pub fn word<'a>(words: &'a str, place: usize) -> &'a str {
    let (word, _) = cut(after(words, place));
    word
}

/// The field at a place of a word that is cut at colons; an empty one where there is none.
pub fn field<'a>(word: &'a str, place: usize) -> &'a str {
    let mut left = place;
    for field in word.split(':') {
        if left == 0 {
            return field;
        }
        left -= 1;
    }
    ""
}

/// The number that a word tells; 0 where it tells none.
pub fn number(word: &str) -> u32 {
    word.parse().unwrap_or(0)
}

/// The same in 16 bits.
pub fn number_16(word: &str) -> u16 {
    word.parse().unwrap_or(0)
}

/// The address that a word tells; 0.0.0.0 where it tells none.
pub fn address(word: &str) -> u32 {
    read_address(word.as_bytes()).unwrap_or(0)
}

/// The number that the word at a place tells.
pub fn number_at(words: &str, place: usize) -> u32 {
    number(word(words, place))
}

/// The same in 16 bits.
pub fn number_16_at(words: &str, place: usize) -> u16 {
    number_16(word(words, place))
}

/// The same in 8 bits.
pub fn byte_at(words: &str, place: usize) -> u8 {
    word(words, place).parse().unwrap_or(0)
}

/// The address that the word at a place tells.
pub fn address_at(words: &str, place: usize) -> u32 {
    address(word(words, place))
}

/// The node that a word names, as `1.1.1.1` or `net:10.0.0.4`.
pub fn node(word: &str) -> NodeId {
    match word.strip_prefix("net:") {
        Some(network) => NodeId::network(address(network)),
        None => NodeId::router(address(word)),
    }
}

/// Puts a text with these numbers in the places of its `%`, and as addresses in those of its `@`.
pub fn spell(page: &mut Page, form: &str, numbers: &[u32]) {
    let mut place = 0usize;
    for byte in form.as_bytes() {
        let number = told_at(numbers, place);
        match *byte {
            b'%' => page.number("", number as u64),
            b'@' => page.address("", number),
            byte => {
                page.put_bytes(&[byte]);
                continue;
            }
        }
        place = place.wrapping_add(1);
    }
}

fn told_at(numbers: &[u32], place: usize) -> u32 {
    match numbers.get(place) {
        Some(number) => *number,
        None => 0,
    }
}

/// The text that the words tell.
pub fn text(alloc: Global, words: &str) -> Page {
    let mut text = Page::new(alloc);
    text.put_told(words);
    text
}
