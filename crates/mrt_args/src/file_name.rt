//! The names of files.

use mrt_io::Word;
use std::marker::Model;

/// The name of a file, as a word has it. Contracts see it as the list of its bytes.
#[derive(Drop)]
pub struct FileName<'a> {
    word: &'a Word,
}

impl<'a> Model for FileName<'a> {
    ghost use Rattle.std.specs.Prelude.{List, ℕ};

    ghost Value = { List ℕ };

    ghost view = { λ name. name.word.now };
}

impl<'a> FileName<'a> {
    ghost use Rattle.std.specs.Prelude.{◌≡◌};

    /// The name that a word is.
    pub(crate) fn new(word: &'a Word) -> FileName<'a>
        ensures { result ≡ word.now }
    {
        FileName { word }
    }

    /// The word.
    pub(crate) fn word(&self) -> &'a Word
        ensures { result.now ≡ self.now }
    {
        self.word
    }
}
