//! The program: the machine's arguments, files and streams, and the exit's status. `main` has no contract:
//! one stored run tests it.
#![tactic(auto)]

use mrt_args::argument_words;
use mrt_cmd::run;
use mrt_io::{FileShelf, StdSink, put_all};
use std::env;
use std::process::ExitCode;

fn main(rt: HostRuntime) -> ExitCode {
    let mut out = StdSink::new(rt.stdout());
    let mut err = StdSink::new(rt.stderr());
    let exit = match argument_words(rt.alloc(), env::args(&rt)) {
        Ok(words) => {
            let mut shelf = FileShelf::new(&rt);
            run(rt.alloc(), words.as_slice(), &mut shelf, &mut out, &mut err)
        }
        Err(exit) => {
            let _ = put_all(&mut err, exit.line().bytes());
            exit
        }
    };
    ExitCode::from(exit.status())
}
