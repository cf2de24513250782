//! What is asked of the area of a file of LSAs: of the area alone, or of the island of one of its routers.

ghost use Rattle.std.specs.Prelude.{◌≤◌, length};

use crate::area_told::area;
use crate::calls::Call;
use crate::islands::put_island_of;
use crate::{areas, hops, of_island};
use area_graph::Area;
use parts_of_tests::Page;
use std::alloc::Global;

/// Puts what a call asks of the area of these bytes.
pub fn put_of_area(
    alloc: Global,
    call: Call,
    bytes: &[u8],
    files: &[Vec<u8>],
    words: &str,
    page: &mut Page,
)
    requires { length bytes.now ≤ 8388608 }
{
    if let Some(area) = area(alloc, bytes, page) {
        put_asked(alloc, &area, call, files, words, page);
    }
}

fn put_asked(
    alloc: Global,
    area: &Area,
    call: Call,
    files: &[Vec<u8>],
    words: &str,
    page: &mut Page,
) {
    match call {
        Call::Area => areas::put_area(page, area),
        Call::Find => areas::put_found(page, area, words),
        Call::Named => areas::put_named(page, area, words),
        Call::Numbered => areas::put_numbered(page, area),
        Call::Island => put_island_of(alloc, area, words, page),
        Call::Primaries | Call::LoopFree => hops::put_hops(alloc, area, call, words, page),
        _ => of_island::put_of_island(alloc, area, call, files, words, page),
    }
}
