//! Words over devices in memory.

use crate::asked::{Asked, Words, list_of, with_settings};
use crate::devices::{Devices, Streams, devices_of, new_streams, one};
use crate::files::{Held, are_distinct, hold};
use crate::telling::put_seen;
use mrt_cmd::{Exit, run};
use mrt_io::MemShelf;
use parts_of_tests::Page;
use std::alloc::Global;
use std::rt::Files;

/// `mem SETTINGS : WORDS > FILE << LINES`.
pub fn put_mem<R: Files>(rt: &R, alloc: Global, words: Words<'_>, page: &mut Page) {
    let (settings, asked) = with_settings(words);
    match devices_of(settings) {
        Some(devices) => {
            let files = hold(rt, alloc, &asked);
            put_over_files(rt, alloc, &asked, files, devices, page);
        }
        None => page.put(" no such setting\n"),
    }
}

/// Adds the answer over these files.
pub fn put_over_files<R: Files>(
    rt: &R,
    alloc: Global,
    asked: &Asked<'_>,
    files: Vec<Held>,
    devices: Devices,
    page: &mut Page,
) {
    let Ok(mut streams) = new_streams(alloc, devices) else {
        return;
    };
    match exit_over(alloc, asked.words, files, devices.read, &mut streams) {
        Some(exit) => put_seen(rt, alloc, asked.wanted, exit, &streams, page),
        None => page.put(" not asked: a file that is named twice\n"),
    }
}

/// The exit of the words over a shelf of these files, which fails this call; none where a file's name stands twice.
fn exit_over(
    alloc: Global,
    words: Words<'_>,
    files: Vec<Held>,
    fails: u32,
    streams: &mut Streams,
) -> Option<Exit> {
    if !are_distinct(&files) {
        return None;
    }
    let words = list_of(alloc, words);
    let mut shelf = MemShelf::new(files, one(alloc, fails));
    Some(run(
        alloc,
        words.as_slice(),
        &mut shelf,
        &mut streams.out,
        &mut streams.err,
    ))
}
