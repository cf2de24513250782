//! The texts of a row's tag and of its colors.

ghost use Rattle.std.specs.Prelude.{◌≡◌, ◌≤◌, length};
ghost use Rattle.mrt_report.specs.Cells.{letter_text, tag_text};

use mrt_graph::{Color, Tag};

/// A row's tag, in lower case.
pub fn tag_word(tag: Tag) -> &'static [u8]
    ensures value { result.now ≡ tag_text tag }
    ensures short { length result.now ≤ 9 }
{
    match tag {
        Tag::Sole => b"sole",
        Tag::Head => b"head",
        Tag::Top => b"top",
        Tag::Below => b"below",
        Tag::Above => b"above",
        Tag::Unordered => b"unordered",
        Tag::Carried => b"carried",
    }
}

/// The letter of a color, or of none.
pub fn letter(color: Option<Color>) -> &'static [u8]
    ensures value { result.now ≡ letter_text color }
    ensures short { length result.now ≤ 1 }
{
    match color {
        Some(Color::Blue) => b"b",
        Some(Color::Red) => b"r",
        None => b"-",
    }
}
