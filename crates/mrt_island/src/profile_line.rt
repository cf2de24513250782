//! A line of a profile file.

ghost use Rattle.std.specs.Prelude.{◌≡◌, ◌∷◌, []};
ghost use Rattle.std.specs.List.{list_all};
ghost use Rattle.text_parts.specs.TextLines.{words_of};
ghost use Rattle.mrt_island.specs.ProfileLines.{is_allowed, line_setting, priority_in, setting_in_words};

use crate::profile_error::ProfileKind;
use crate::setting::Setting;
use text_parts::{first_word, read_address, read_number};

/// The setting of a line that is not passed over, or its first fault of its own.
pub fn read_setting(line: &[u8]) -> Result<Setting, ProfileKind>
    ensures { result ≡ line_setting line.now }
{
    if !are_allowed(line) {
        return Err(ProfileKind::Bytes);
    }
    read_words(line)
}

fn are_allowed(line: &[u8]) -> bool
    ensures { result ≡ list_all is_allowed line.now }
{
    line.iter().all(|byte| is_allowed(*byte))
}

fn is_allowed(byte: u8) -> bool
    ensures { result ≡ is_allowed byte }
{
    byte == b'\t' || (32 <= byte && byte <= 126)
}

/// The setting that the words of a line spell.
fn read_words(line: &[u8]) -> Result<Setting, ProfileKind>
    ensures { result ≡ setting_in_words (words_of line.now) }
{
    let Some((command, rest)) = first_word(line) else {
        return Err(ProfileKind::Words);
    };
    let Some((router, rest)) = first_word(rest) else {
        return Err(ProfileKind::Words);
    };
    let Some((last, rest)) = first_word(rest) else {
        return setting_of_router(command, router);
    };
    match first_word(rest) {
        Some(_) => Err(ProfileKind::Words),
        None => setting_of_two(command, router, last),
    }
}

/// The setting of a line of two words.
fn setting_of_router(command: &[u8], router: &[u8]) -> Result<Setting, ProfileKind>
    ensures { result ≡ setting_in_words (command.now ∷ router.now ∷ []) }
{
    if command != b"no-mrt".as_slice() {
        return Err(ProfileKind::Words);
    }
    let router = read_address(router).ok_or(ProfileKind::Address)?;
    Ok(Setting::NoMrt { router })
}

/// The setting of a line of three words.
fn setting_of_two(command: &[u8], router: &[u8], last: &[u8]) -> Result<Setting, ProfileKind>
    ensures { result ≡ setting_in_words (command.now ∷ router.now ∷ last.now ∷ []) }
{
    if command == b"priority".as_slice() {
        let router = read_address(router).ok_or(ProfileKind::Address)?;
        let priority = read_priority(last).ok_or(ProfileKind::Number)?;
        return Ok(Setting::Priority { router, priority });
    }
    if command != b"ineligible".as_slice() {
        return Err(ProfileKind::Words);
    }
    let router = read_address(router).ok_or(ProfileKind::Address)?;
    let link_data = read_address(last).ok_or(ProfileKind::Address)?;
    Ok(Setting::Ineligible { router, link_data })
}

/// The number from 0 to 255 that a word spells.
fn read_priority(word: &[u8]) -> Option<u8>
    ensures { result ≡ priority_in word.now }
{
    let number = read_number(word)?;
    u8::try_from(number).ok()
}
