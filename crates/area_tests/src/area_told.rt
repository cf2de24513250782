//! The area of a file of LSAs.

ghost use Rattle.std.specs.Prelude.{◌≤◌, length};

use crate::lsas::put_error;
use crate::told::spell;
use area_graph::{Area, AreaError, build_area};
use lsdb::{Conflict, Lsdb, database_of};
use ospf_lsa::read_lsas;
use parts_of_tests::Page;
use std::alloc::Global;

/// The area of a file; where there is none, it says why.
pub fn area(alloc: Global, bytes: &[u8], page: &mut Page) -> Option<Area>
    requires { length bytes.now ≤ 8388608 }
{
    match read_lsas(alloc, bytes) {
        Ok(lsas) => match database_of(alloc, lsas) {
            Ok(database) => area_in(alloc, &database, page),
            Err(_) => None,
        },
        Err(error) => {
            put_error(page, error);
            None
        }
    }
}

/// The area of a database; where there is none, it says why.
pub fn area_in(alloc: Global, database: &Lsdb, page: &mut Page) -> Option<Area> {
    if let Err(conflict) = database.settled() {
        put_conflict(page, conflict);
        return None;
    }
    match build_area(alloc, database) {
        Ok(area) => Some(area),
        Err(AreaError::TooLarge { nodes, arcs }) => {
            page.number("too large: nodes ", nodes as u64);
            page.number(" arcs ", arcs as u64);
            page.end();
            None
        }
        Err(AreaError::NoMemory) => None,
    }
}

/// Says which newest instances differ.
pub fn put_conflict(page: &mut Page, conflict: Conflict) {
    spell(
        page,
        "conflict at % with %\n",
        &[conflict.second, conflict.first],
    );
}
