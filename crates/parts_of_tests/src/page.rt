//! The answer to a row, while it is put together. A piece for which there is no memory is left out, and the answer is another
//! one then; so what puts pieces has nothing to give back.

ghost use Rattle.std.specs.Prelude.{◌<◌};

use mrt_graph::{LinkNo, NodeId, NodeNo};
use std::alloc::Global;
use text_parts::{NodeText, push_number};

/// A text.
pub struct Page {
    text: Vec<u8>,
}

impl Drop for Page {
    fn drop(self) {
        let Self { text: _ } = self;
    }
}

impl Page {
    /// A page with nothing on it.
    pub fn new(alloc: Global) -> Page {
        Page {
            text: Vec::new(alloc),
        }
    }

    /// All that was put on it.
    pub fn into_bytes(self) -> Vec<u8> {
        let Self { text } = self;
        text
    }

    pub fn bytes(&self) -> &[u8] {
        self.text.as_slice()
    }

    /// Takes all away that was put on it.
    pub fn clear(&mut self) {
        self.text.clear();
    }

    /// Puts bytes.
    pub fn put_bytes(&mut self, bytes: &[u8]) {
        let _ = self.text.extend_from_slice(bytes);
    }

    /// Puts a text.
    pub fn put(&mut self, text: &str) {
        self.put_bytes(text.as_bytes());
    }

    /// Ends a line.
    pub fn end(&mut self) {
        self.put_bytes(b"\n");
    }

    /// Puts bytes, if they could be made.
    pub fn made<E: Drop>(&mut self, bytes: Result<Vec<u8>, E>) {
        if let Ok(bytes) = bytes {
            self.put_bytes(&bytes);
        }
    }

    /// Puts the bytes that a text tells: `\s`, `\t`, `\n`, `\r` and, by two digits, `\x80` are one byte each.
    pub fn put_told(&mut self, text: &str) {
        let mut is_first = true;
        for piece in text.split('\\') {
            if is_first {
                self.put(piece);
            } else {
                self.put_escaped(piece.as_bytes());
            }
            is_first = false;
        }
    }

    /// Puts what a piece tells that stood after a `\`.
    fn put_escaped(&mut self, piece: &[u8]) {
        let (byte, rest) = match piece {
            [b's', rest @ ..] => (b' ', rest),
            [b't', rest @ ..] => (b'\t', rest),
            [b'n', rest @ ..] => (b'\n', rest),
            [b'r', rest @ ..] => (b'\r', rest),
            [b'x', high, low, rest @ ..] => (told(*high) * 16 + told(*low), rest),
            _ => (b'\\', piece),
        };
        self.put_bytes(&[byte]);
        self.put_bytes(rest);
    }

    /// Puts a text and a number.
    pub fn number(&mut self, before: &str, number: u64) {
        let _ = push_number(&mut self.text, before.as_bytes(), number);
    }

    /// The same with a smaller number.
    pub fn count(&mut self, before: &str, count: u16) {
        self.number(before, u64::from(count));
    }

    /// The same with a node's number.
    pub fn node(&mut self, before: &str, node: NodeNo) {
        self.count(before, node.get());
    }

    /// The same with a link's number.
    pub fn link(&mut self, before: &str, link: LinkNo) {
        self.count(before, link.get());
    }

    /// Puts a text with these numbers in the places of its `%`.
    pub fn tell(&mut self, form: &str, numbers: &[u16]) {
        let mut place = 0usize;
        for part in form.split('%') {
            self.put(part);
            if let Some(number) = numbers.get(place) {
                self.count("", *number);
            }
            place = place.wrapping_add(1);
        }
    }

    /// Puts a node's name.
    pub fn name(&mut self, id: NodeId) {
        self.put_bytes(NodeText::new(id).bytes());
    }

    /// Puts a text and an address.
    pub fn address(&mut self, before: &str, address: u32) {
        self.put(before);
        self.name(NodeId::router(address));
    }

    /// Puts a text, and `true` or `false`.
    pub fn truth(&mut self, before: &str, is_so: bool) {
        self.put(before);
        self.put(if is_so { "true" } else { "false" });
    }

    /// Puts a text and bytes, two digits each.
    pub fn hex(&mut self, before: &str, bytes: &[u8]) {
        self.put(before);
        for byte in bytes {
            self.put_bytes(&[digit(*byte / 16), digit(*byte % 16)]);
        }
    }
}

/// The number of a digit; 0 for a byte that is none.
fn told(digit: u8) -> u8
    ensures { result < 16 }
{
    match digit {
        b'0'..=b'9' => digit - b'0',
        b'a'..=b'f' => digit - b'a' + 10,
        _ => 0,
    }
}

/// The digit of a number below 16.
fn digit(number: u8) -> u8 {
    match number {
        0..10 => b'0' + number,
        10..16 => b'a' + (number - 10),
        _ => b'?',
    }
}
