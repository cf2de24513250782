//! Rows on LSAs, packets, databases, areas and islands, and on primaries, repairs and surveys: each line of input has a name,
//! a call and what that is given; each answer is printed below its name.
#![tactic(auto)]

mod alternates;
mod area_told;
mod areas;
mod calls;
mod delivered;
mod hops;
mod instances;
mod islands;
mod kept;
mod limits;
mod lsa_text;
mod lsas;
mod of_area;
mod of_certificate;
mod of_island;
mod routes;
mod rows;
mod surveys;
mod told;
mod written;

use parts_of_tests::Page;
use rows::put_row;
use std::io::Write;
use std::process::ExitCode;

fn main(rt: HostRuntime) -> ExitCode {
    let mut out = rt.stdout();
    for line in rt.lines(rt.alloc()) {
        let Ok(line) = line else {
            return ExitCode::from(1);
        };
        let mut page = Page::new(rt.alloc());
        put_row(&rt, line.as_str(), &mut page);
        if out.write_all(page.bytes()).is_err() {
            return ExitCode::from(2);
        }
    }
    ExitCode::from(0)
}
