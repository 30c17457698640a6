//! The program: the real files and streams, the words of the command line, and the status.
#![tactic(auto)]

use mlir_opt::{Refusal, mlir_opt, refuse};
use mlir_streams::{HostShelf, HostSink};
use std::env;
use std::io::ErrorKind;
use std::process::ExitCode;

fn main(rt: HostRuntime) -> ExitCode {
    let alloc = rt.alloc();
    let mut shelf = HostShelf::new(&rt, rt.stdin());
    let mut out = HostSink::new(rt.stdout());
    let mut err = HostSink::new(rt.stderr());
    let args = match env::args(&rt) {
        Ok(args) => args,
        Err(e) if e.kind() == ErrorKind::OutOfMemory => {
            return ExitCode::from(refuse(alloc, &mut err, Refusal::Memory));
        }
        Err(_) => return ExitCode::from(refuse(alloc, &mut err, Refusal::Words)),
    };
    let Ok(words) = args.collect::<Vec<String>>(alloc) else {
        return ExitCode::from(refuse(alloc, &mut err, Refusal::Memory));
    };
    ExitCode::from(mlir_opt(alloc, &words, &mut shelf, &mut out, &mut err))
}
