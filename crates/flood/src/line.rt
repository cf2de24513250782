//! A line of a script.

ghost use Rattle.std.specs.Prelude.{◌≡◌, ◌∷◌, []};
ghost use Rattle.flood.specs.FloodLines.{comparison_in, count_in, delivery_in, line_in, line_in_words, number_of_router, routers_in};

use crate::script::FloodLine;
use text_parts::{first_word, read_address, read_number};

/// How many routers `routers N` says.
pub fn read_routers(line: &[u8]) -> Option<u16>
    ensures { result ≡ routers_in line.now }
{
    let (command, rest) = first_word(line)?;
    let (count, rest) = first_word(rest)?;
    if first_word(rest).is_some() {
        return None;
    }
    if command != b"routers".as_slice() {
        return None;
    }
    read_count(count)
}

/// The number from 1 to 64 that a word spells.
fn read_count(word: &[u8]) -> Option<u16>
    ensures { result ≡ count_in word.now }
{
    let count = read_router(word)?;
    if count == 0 {
        return None;
    }
    if count <= 64 { Some(count) } else { None }
}

/// The number from 0 to 65,535 that a word spells.
fn read_router(word: &[u8]) -> Option<u16>
    ensures { result ≡ number_of_router word.now }
{
    let number = read_number(word)?;
    u16::try_from(number).ok()
}

/// What a later line says.
pub fn read_line(line: &[u8]) -> Option<FloodLine>
    ensures { result ≡ line_in line.now }
{
    let (command, rest) = first_word(line)?;
    let (first, rest) = first_word(rest)?;
    let (second, rest) = first_word(rest)?;
    match first_word(rest) {
        None => delivery(command, first, second),
        Some((third, rest)) => {
            if first_word(rest).is_some() {
                return None;
            }
            comparison(command, first, second, third)
        }
    }
}

/// What a line of three words says: `deliver P R`.
fn delivery(command: &[u8], packet: &[u8], router: &[u8]) -> Option<FloodLine>
    ensures { result ≡ line_in_words (command.now ∷ packet.now ∷ router.now ∷ []) }
{
    if command != b"deliver".as_slice() {
        return None;
    }
    delivered(packet, router)
}

/// The delivery of the packet to the router with these numbers.
fn delivered(packet: &[u8], router: &[u8]) -> Option<FloodLine>
    ensures { result ≡ delivery_in packet.now router.now }
{
    let packet = read_number(packet)?;
    let router = read_router(router)?;
    Some(FloodLine::Deliver { packet, router })
}

/// What a line of four words says: `same R Q ROUTER`.
fn comparison(command: &[u8], one: &[u8], other: &[u8], router: &[u8]) -> Option<FloodLine>
    ensures { result ≡ line_in_words (command.now ∷ one.now ∷ other.now ∷ router.now ∷ []) }
{
    if command != b"same".as_slice() {
        return None;
    }
    compared(one, other, router)
}

/// The comparison of these routers' databases by that router's island.
fn compared(one: &[u8], other: &[u8], router: &[u8]) -> Option<FloodLine>
    ensures { result ≡ comparison_in one.now other.now router.now }
{
    let one = read_router(one)?;
    let other = read_router(other)?;
    let router = read_address(router)?;
    Some(FloodLine::Same { one, other, router })
}
