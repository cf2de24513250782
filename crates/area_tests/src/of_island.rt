//! What is asked of the island of a router: its address is the first word. A second file is the profile.

ghost use Rattle.std.specs.Prelude.{◌≤◌, IfSome, length};
ghost use Rattle.area_graph.specs.Fits.{Fits};

use crate::calls::Call;
use crate::of_certificate::put_of_certificate;
use crate::routes::put_routes;
use crate::told::{address_at, file};
use area_graph::Area;
use mrt_island::{Island, find_island, read_profile};
use parts_of_tests::Page;
use std::alloc::Global;

/// Puts what a call asks of an island.
pub fn put_of_island(
    alloc: Global,
    area: &Area,
    call: Call,
    files: &[Vec<u8>],
    words: &str,
    page: &mut Page,
) {
    if let Some(island) = island_of(alloc, area, file(files, 1), address_at(words, 0)) {
        put_asked(alloc, area, &island, call, words, page);
    }
}

/// The island of a router by a profile.
fn island_of(alloc: Global, area: &Area, profile: &[u8], router: u32) -> Option<Island>
    requires { length profile.now ≤ 8388608 }
    ensures { IfSome result (λ island. Fits area.now island.graph island.link_of) }
{
    match read_profile(alloc, profile) {
        Ok(profile) => find_island(alloc, area, &profile, router).ok(),
        Err(_) => None,
    }
}

fn put_asked(alloc: Global, area: &Area, island: &Island, call: Call, words: &str, page: &mut Page)
    requires { Fits area.now island.now.graph island.now.link_of }
{
    match call {
        Call::Routes => put_routes(alloc, area, island, page),
        _ => put_of_certificate(alloc, island, call, words, page),
    }
}
