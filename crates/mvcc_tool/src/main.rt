//! `mvcc_tool run`: carries out the script on standard input and writes its answers to standard output.
#![tactic(auto)]

use io_edge::{ReaderSource, WriterSink};
use script_run::{Status, run};
use std::env::{self, Env};
use std::io;
use std::process::ExitCode;

/// The exit status is that of the run. Words that have no reading write one line to standard error.
fn main(rt: HostRuntime) -> ExitCode {
    let status = match words(&rt) {
        Ok(words) => {
            let mut source = ReaderSource::new(rt.stdin());
            let mut sink = WriterSink::new(rt.stdout());
            run(&rt, rt.alloc(), words.as_slice(), &mut source, &mut sink)
        }
        Err(error) => match error.kind() {
            io::ErrorKind::OutOfMemory => Status::OutOfMemory,
            _ => Status::Usage,
        },
    };
    if status == Status::Usage {
        let _ = eprintln!(rt; "usage: mvcc_tool run|gen [options]");
    }
    ExitCode::from(status.number())
}

/// The words of the command line without the program's name. A word that is not UTF-8 is an error.
fn words<R: Env + AllocGlobal>(rt: &R) -> io::Result<Vec<String>> {
    let words = env::args(rt)?.skip(1).collect(rt.alloc())?;
    Ok(words)
}
