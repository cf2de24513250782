//! A text of a few bytes in an array, which takes no memory.

ghost use Rattle.std.specs.Prelude.{◌≡◌, ◌<◌, ◌≤◌, ◌+◌, ◌++◌, ◌∷◌, [], length};

use std::marker::Model;

/// A text of at most `N` bytes.
#[derive(Drop)]
pub struct ShortText<const N: usize> {
    bytes: [u8; N],
    count: usize,
}

impl<const N: usize> Model for ShortText<N> {
    ghost use Rattle.std.specs.Prelude.{List, ℕ, ◌≤◌, take};

    ghost Value = { List ℕ };

    ghost view = { λ text. take text.count text.bytes };

    ghost invariant = { λ text. text.count ≤ N };
}

impl<const N: usize> ShortText<N> {
    /// A text without bytes.
    pub fn new() -> ShortText<N>
        ensures { result ≡ [] }
    {
        ShortText {
            bytes: [0; N],
            count: 0,
        }
    }

    /// Its bytes.
    pub fn bytes(&self) -> &[u8]
        ensures value { result.now ≡ self.now }
        ensures short { length result.now ≤ N }
    {
        &self.bytes[..self.count]
    }

    /// Puts a byte at its end, where there is room for it.
    pub fn push(&mut self, byte: u8)
        requires { length self.old < N }
        ensures { self.new ≡ self.old ++ byte ∷ [] }
    {
        self.bytes[self.count] = byte;
        self.count += 1;
    }

    /// Puts bytes at its end, where there is room for them.
    pub fn put(&mut self, part: &[u8])
        requires { length self.old + length part.now ≤ N }
        ensures { self.new ≡ self.old ++ part.now }
    {
        let end = self.count + part.len();
        let bytes = &mut self.bytes[..];
        bytes[self.count..end].copy_from_slice(part);
        self.count = end;
    }
}
