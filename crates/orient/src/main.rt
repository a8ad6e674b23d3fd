//! `orient`: refinement edges chosen anew, so that `adapt` takes a macro triangulation.
#![tactic(auto)]

mod call;
mod files;
mod stop;

use adapt_cli::ending::{MEMORY, write_line};
use call::{USAGE, orient};
use mesh_io::{FileShelf, StreamSink};
use std::env;
use std::process::ExitCode;

fn main(rt: HostRuntime) -> ExitCode {
    let mut words = Vec::new(rt.alloc());
    let mut out = StreamSink::new(rt.stdout());
    let mut err = StreamSink::new(rt.stderr());
    let Ok(args) = env::args(&rt) else {
        return ExitCode::from(write_line(&mut err, USAGE, 2));
    };
    for word in args.skip(1) {
        if words.push(word).is_err() {
            return ExitCode::from(write_line(&mut err, MEMORY, 1));
        }
    }
    let mut shelf = FileShelf::new(&rt);
    ExitCode::from(orient(rt.alloc(), &words, &mut shelf, &mut out, &mut err))
}
