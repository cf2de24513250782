//! Rows on graphs: texts, devices, the computation, certificates, prefixes. Each line of input has a name, a call and
//! what that is given; each answer is printed after its name.
#![tactic(auto)]

mod calls;
mod cert_pieces;
mod cert_words;
mod certs;
mod checks;
mod computed;
mod devices;
mod edits;
mod gadags;
mod graphs;
mod hand_graphs;
mod island;
mod order_walks;
mod paths;
mod plain;
mod proxies;
mod rows;
mod shelves;
mod steps;
mod streams;
mod tables;
mod texts;
mod told;
mod told_bytes;
mod told_files;
mod trees;

use mrt_io::StdSink;
use rows::put_line;
use std::process::ExitCode;

fn main(rt: HostRuntime) -> ExitCode {
    let mut out = StdSink::new(rt.stdout());
    let mut status = 0;
    for line in rt.lines(rt.alloc()) {
        status = match line {
            Ok(line) => put_line(&rt, rt.alloc(), line.as_str(), &mut out),
            Err(_) => 1,
        };
        if status != 0 {
            break;
        }
    }
    ExitCode::from(status)
}
