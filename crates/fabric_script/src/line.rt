//! A line of a script.

ghost use Rattle.std.specs.Prelude.{◌≡◌, ◌∷◌, [], IfSome, Some, codes};
ghost use Rattle.std.specs.{Option.option_map, Str.bytes_eq};
ghost use Rattle.fabric_script.specs.Names.{failure_in};
ghost use Rattle.text_parts.specs.TextLines.{words_of};
ghost use Rattle.fabric_script.specs.ScriptLines.{entry_in, event_in, event_in_words, injection_in, packet_in, room_in, start_in, start_in_words};

use crate::entry::Entry;
use crate::event::ScriptEvent;
use crate::names::{read_failure, read_node};
use text_parts::{first_word, read_address, read_number};

/// What the first line says: a router, and how many packets there may be.
#[derive(Clone, Copy)]
pub struct Start {
    pub router: u32,
    pub room: u16,
}

/// What `island ROUTER ROOM` says.
pub fn read_start(line: &[u8]) -> Option<Start>
    ensures { result ≡ start_in line.now }
{
    let (command, rest) = first_word(line)?;
    let (router, rest) = first_word(rest)?;
    let (room, rest) = first_word(rest)?;
    if first_word(rest).is_some() {
        return None;
    }
    start_of(command, router, room)
}

/// What `island` and these two words say.
fn start_of(command: &[u8], router: &[u8], room: &[u8]) -> Option<Start>
    ensures { result ≡ start_in_words (command.now ∷ router.now ∷ room.now ∷ []) }
{
    if command != b"island".as_slice() {
        return None;
    }
    let router = read_address(router)?;
    let room = read_room(room)?;
    Some(Start { router, room })
}

/// The number from 1 to 65,535 that a word spells.
fn read_room(word: &[u8]) -> Option<u16>
    ensures { result ≡ room_in word.now }
{
    let room = read_packet(word)?;
    if room == 0 { None } else { Some(room) }
}

/// The number from 0 to 65,535 that a word spells.
fn read_packet(word: &[u8]) -> Option<u16>
    ensures { result ≡ packet_in word.now }
{
    let number = read_number(word)?;
    u16::try_from(number).ok()
}

/// The event of a line.
pub fn read_event(line: &[u8]) -> Option<ScriptEvent>
    ensures { result ≡ event_in line.now }
{
    match plain_step(line) {
        Some(packet) => Some(ScriptEvent::Step { packet }),
        None => event_of_words(line),
    }
}

/// The packet of a line of `step`, one space and a number, as most lines are: they are read without a look for words.
fn plain_step(line: &[u8]) -> Option<u16>
    ensures { IfSome result (λ packet. event_in line.now ≡ Some (ScriptEvent.Step packet)) }
{
    let word = line.strip_prefix(b"step ".as_slice())?;
    read_packet(word)
}

/// The event of the words of a line.
#[inline(never)]
fn event_of_words(line: &[u8]) -> Option<ScriptEvent>
    ensures { result ≡ event_in line.now }
{
    let (command, rest) = first_word(line)?;
    let (first, rest) = first_word(rest)?;
    match first_word(rest) {
        None => short_event(command, first),
        Some((second, rest)) => long_event(command, first, second, rest),
    }
}

/// The event of a line of four words: `inject ROUTER NODE`, and how in the rest of the line.
// Most lines are steps, whose code is better without this one inlined.
#[inline(never)]
fn long_event(command: &[u8], router: &[u8], to: &[u8], rest: &[u8]) -> Option<ScriptEvent>
    ensures { result ≡ event_in_words (command.now ∷ router.now ∷ to.now ∷ words_of rest.now) }
{
    let (entry, rest) = first_word(rest)?;
    if first_word(rest).is_some() || command != b"inject".as_slice() {
        return None;
    }
    injection(router, to, entry)
}

/// The event of a line of two words: `step N` or `fail NAME`.
fn short_event(command: &[u8], word: &[u8]) -> Option<ScriptEvent>
    ensures { result ≡ event_in_words (command.now ∷ word.now ∷ []) }
{
    if is_step(command) {
        let packet = read_packet(word)?;
        return Some(ScriptEvent::Step { packet });
    }
    if command == b"fail".as_slice() {
        return failure(word);
    }
    None
}

/// The event of `fail` and this word.
#[inline(never)]
fn failure(word: &[u8]) -> Option<ScriptEvent>
    ensures { result ≡ option_map (λ failed. ScriptEvent.Fail failed) (failure_in word.now) }
{
    let failed = read_failure(word)?;
    Some(ScriptEvent::Fail { failed })
}

/// Whether a word is `step`.
fn is_step(command: &[u8]) -> bool
    ensures { result ≡ bytes_eq command.now (codes "step") }
{
    matches!(command, [b's', b't', b'e', b'p'])
}

/// The event of `inject` and these three words.
fn injection(router: &[u8], to: &[u8], entry: &[u8]) -> Option<ScriptEvent>
    ensures { result ≡ injection_in router.now to.now entry.now }
{
    let router = read_address(router)?;
    let to = read_node(to)?;
    let entry = read_entry(entry)?;
    Some(ScriptEvent::Inject { router, to, entry })
}

/// How a packet enters, as a word says it.
pub fn read_entry(word: &[u8]) -> Option<Entry>
    ensures { result ≡ entry_in word.now }
{
    if word == b"blue".as_slice() {
        return Some(Entry::Blue);
    }
    if word == b"red".as_slice() {
        return Some(Entry::Red);
    }
    if word == b"repair".as_slice() {
        return Some(Entry::Repair);
    }
    None
}
