//! The bytes of a part that is cut between two pieces of a stream.

ghost use Rattle.std.specs.Prelude.{◌≡◌, ◌≤◌, ◌+◌, ◌++◌, ◌↔◌, IsTrue, [], length};

use std::marker::Model;

/// At most 14 bytes, the length of the longest part.
#[derive(Drop)]
pub struct CutPart {
    bytes: [u8; 14],
    len: usize,
}

impl Model for CutPart {
    ghost use Rattle.std.specs.Prelude.{◌≤◌, ℕ, List, take};

    ghost Value = { List ℕ };

    ghost view = { λ h. take h.len h.bytes };

    ghost invariant = { λ h. h.len ≤ 14 };
}

impl CutPart {
    pub fn new() -> CutPart
        ensures { result ≡ [] }
    {
        CutPart {
            bytes: [0; 14],
            len: 0,
        }
    }

    /// The same bytes once more.
    pub fn again(&self) -> CutPart
        ensures { result ≡ self.now }
    {
        CutPart {
            bytes: self.bytes,
            len: self.len,
        }
    }

    pub fn is_empty(&self) -> bool
        ensures { IsTrue result ↔ (self.now ≡ []) }
    {
        self.len == 0
    }

    pub fn bytes(&self) -> &[u8]
        ensures { result.now ≡ self.now }
    {
        &self.bytes[..self.len]
    }

    /// Holds these bytes too.
    pub fn push(&mut self, more: &[u8])
        requires { length self.old + length more.now ≤ 14 }
        ensures { self.new ≡ self.old ++ more.now }
    {
        let end = self.len + more.len();
        self.bytes[self.len..end].copy_from_slice(more);
        self.len = end;
    }
}
