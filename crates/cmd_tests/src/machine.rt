//! Words over the files of the folder where the program runs.

use crate::asked::{Asked, Words, asked_of, list_of};
use crate::devices::{CALM, Streams, new_streams};
use crate::telling::put_seen;
use mrt_cmd::{Exit, run};
use mrt_io::FileShelf;
use parts_of_tests::Page;
use std::alloc::Global;
use std::rt::Files;

/// `run WORDS > FILE`.
pub fn put_run<R: Files>(rt: &R, alloc: Global, words: Words<'_>, page: &mut Page) {
    let asked = asked_of(words);
    if let Ok(mut streams) = new_streams(alloc, CALM) {
        let exit = exit_of(rt, alloc, &asked, &mut streams);
        put_seen(rt, alloc, asked.wanted, exit, &streams, page);
    }
}

fn exit_of<R: Files>(rt: &R, alloc: Global, asked: &Asked<'_>, streams: &mut Streams) -> Exit {
    let words = list_of(alloc, asked.words);
    let mut shelf = FileShelf::new(rt);
    run(
        alloc,
        words.as_slice(),
        &mut shelf,
        &mut streams.out,
        &mut streams.err,
    )
}
