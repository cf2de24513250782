//! The two next hops of a router for another one: an example of the crates, from bytes to an answer.
//!
//!     next_hops ROUTER TO < DATABASE
#![tactic(auto)]

mod failure;
mod next_hops;

pub use failure::Failure;
use mrt_graph::NodeId;
pub use next_hops::{NextHops, next_hops};
use std::env;
use std::io::{self, ErrorKind, Read, Write};
use text_parts::{NodeText, read_address};

/// How many bytes a database has at most.
const MOST: usize = 8_388_608;

fn main(rt: HostRuntime) -> io::Result<()> {
    let mut words = env::args(&rt)?.skip(1);
    let router = words.next().and_then(|word| read_address(word.as_bytes()));
    let to = words.next().and_then(|word| read_address(word.as_bytes()));
    let (Some(router), Some(to)) = (router, to) else {
        return Err(io::Error::from(ErrorKind::InvalidInput));
    };
    let mut bytes = Vec::new(rt.alloc());
    rt.stdin().take(MOST as u64 + 1).read_to_end(&mut bytes)?;
    if bytes.len() > MOST || router == to {
        return Err(io::Error::from(ErrorKind::InvalidInput));
    }
    match next_hops(rt.alloc(), &bytes, router, to) {
        Ok(hops) => {
            tell(&mut rt.stdout(), b"blue ", hops.blue)?;
            tell(&mut rt.stdout(), b"red ", hops.red)
        }
        Err(failure) => println!(rt; "{failure}"),
    }
}

/// Writes the line on one color.
fn tell<W: Write>(out: &mut W, color: &[u8], id: NodeId) -> io::Result<()> {
    out.write_all(color)?;
    out.write_all(NodeText::new(id).bytes())?;
    out.write_all(b"\n")
}
