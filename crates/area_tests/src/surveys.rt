//! Networks that are made from a number: their databases.

use crate::told::{number_16_at, number_at};
use mrt_survey::generate;
use parts_of_tests::Page;
use std::alloc::Global;

/// The database of a number and so many routers, as two words tell them.
fn made(alloc: Global, number: u32, routers: u16) -> Option<Vec<u8>> {
    if routers < 4 || routers > 2048 {
        return None;
    }
    generate(alloc, number, routers).ok()
}

/// `made FILE NUMBER ROUTERS`: how many bytes the database of a number and so many routers has, and whether they are those of the
/// file.
pub fn put_made(alloc: Global, file: &[u8], words: &str, page: &mut Page) {
    let (told, routers) = (number_at(words, 0), number_16_at(words, 1));
    if let Some(bytes) = made(alloc, told, routers) {
        put_compared(page, &bytes, file);
    }
}

fn put_compared(page: &mut Page, bytes: &[u8], file: &[u8]) {
    page.number("", bytes.len() as u64);
    page.put(if bytes == file {
        " bytes, the same\n"
    } else {
        " bytes, others\n"
    });
}
