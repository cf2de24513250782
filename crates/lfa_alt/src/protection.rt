//! The word on what an alternate protects.

ghost use Rattle.std.specs.Prelude.{◌≡◌};
ghost use Rattle.lfa_alt.specs.LfaText.{kind_text};

/// Whether an alternate protects the primary's next.
pub fn kind_word(node: bool) -> &'static [u8]
    ensures { result.now ≡ kind_text node }
{
    if node { b"node" } else { b"link" }
}
