//! The largest areas and islands, and larger ones: databases of many routers, which are numbered from 0 on.

use crate::area_told::area_in;
use crate::islands::put_error;
use crate::kept::{Instance, put};
use crate::told::number_at;
use lsdb::Lsdb;
use mrt_island::{Profile, find_island};
use parts_of_tests::Page;
use std::alloc::Global;

/// `ring ROUTERS`: so many routers in a ring.
pub fn put_ring(alloc: Global, words: &str, page: &mut Page) {
    put_counts(alloc, number_at(words, 0), None, page);
}

/// `apart ROUTERS LINKS`: so many routers, of which the first two have so many links to each other.
pub fn put_apart(alloc: Global, words: &str, page: &mut Page) {
    let links = number_at(words, 1) as usize;
    put_counts(alloc, number_at(words, 0), Some(links), page);
}

/// Puts the counts of an area, and of the island of router 0.
fn put_counts(alloc: Global, routers: u32, links: Option<usize>, page: &mut Page) {
    put_area(alloc, &database_of(alloc, routers, links), page);
}

/// The two routers beside one, around a ring of so many.
fn beside(number: u32, count: u32) -> [u32; 2] {
    let next = number.wrapping_add(1);
    let next = if next == count { 0 } else { next };
    if number == 0 {
        [next, count.wrapping_sub(1)]
    } else {
        [next, number - 1]
    }
}

/// The routers that a router has links to, one for each link: in a ring, or where the first two have so many links to each other.
fn neighbours(alloc: Global, routers: u32, links: Option<usize>, number: u32) -> Vec<u32> {
    let mut neighbours = Vec::new(alloc);
    match links {
        None => {
            let _ = neighbours.extend_from_slice(&beside(number, routers));
        }
        Some(links) => {
            if number < 2 {
                let _ = neighbours.resize(links, 1 - number);
            }
        }
    }
    neighbours
}

/// The database of so many routers, each installed at the place of its own number.
fn database_of(alloc: Global, routers: u32, links: Option<usize>) -> Lsdb {
    let mut database = Lsdb::new(alloc);
    for number in 0..routers {
        let instance = Instance {
            router: number,
            sequence: 1,
            age: 1,
            checksum: 0,
            flags: 0,
        };
        let to = neighbours(alloc, routers, links, number);
        let Ok(_) = put(alloc, &mut database, number, instance, &to) else {
            break;
        };
    }
    database
}

fn put_area(alloc: Global, database: &Lsdb, page: &mut Page) {
    let Some(area) = area_in(alloc, database, page) else {
        return;
    };
    page.count("area: nodes ", area.count());
    page.number(" bonds ", area.bonds().len() as u64);
    page.end();
    match find_island(alloc, &area, &Profile::empty(alloc), 0) {
        Ok(island) => {
            let (nodes, links) = (island.graph.node_count(), island.graph.link_count());
            page.tell("island of router 0: nodes % links %\n", &[nodes, links]);
        }
        Err(error) => put_error(page, error),
    }
}
