//! `adapt`: adaptive triangle meshes by newest-vertex bisection.
#![tactic(auto)]

use adapt_cli::ending::{MEMORY, write_line};
use adapt_cli::program::adapt;
use adapt_words::USAGE;
use mesh_io::{FileShelf, NoGate, StreamSink};
use std::env;
use std::io::ErrorKind;
use std::process::ExitCode;

fn main(rt: HostRuntime) -> ExitCode {
    let mut words = Vec::new(rt.alloc());
    let mut out = StreamSink::new(rt.stdout());
    let mut err = StreamSink::new(rt.stderr());
    let args = match env::args(&rt) {
        Ok(args) => args,
        Err(error) => {
            if error.kind() == ErrorKind::OutOfMemory {
                return ExitCode::from(write_line(&mut err, MEMORY, 1));
            }
            return ExitCode::from(write_line(&mut err, USAGE, 2));
        }
    };
    for word in args.skip(1) {
        if words.push(word).is_err() {
            return ExitCode::from(write_line(&mut err, MEMORY, 1));
        }
    }
    let mut shelf = FileShelf::new(&rt);
    ExitCode::from(adapt(
        &rt,
        rt.alloc(),
        &words,
        &mut shelf,
        &mut out,
        &mut err,
        &NoGate,
    ))
}
