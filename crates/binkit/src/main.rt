//! `binkit`: tools for WebAssembly modules, as commands.
#![tactic(auto)]

use std::alloc::Global;
use std::process::ExitCode;
use std::{env, io};
use tool_io::{HostFiles, HostSink};
use tools_cli::{Status, run};

// The arguments after the program's name.
fn words_of(rt: &HostRuntime, alloc: Global) -> io::Result<Vec<String>> {
    let mut words = Vec::new(alloc);
    for word in env::args(rt)?.skip(1) {
        words.push(word)?;
    }
    Ok(words)
}

fn main(rt: HostRuntime) -> ExitCode {
    let alloc = rt.alloc();
    let words = match words_of(&rt, alloc) {
        Ok(words) => words,
        Err(fault) if fault.kind() == io::ErrorKind::OutOfMemory => {
            return ExitCode::from(Status::NoMemory.code());
        }
        Err(_) => return ExitCode::from(Status::Usage.code()),
    };
    let mut files = HostFiles::new(&rt);
    let mut out = HostSink::new(rt.stdout());
    let mut err = HostSink::new(rt.stderr());
    let status = run(alloc, words.as_slice(), &mut files, &mut out, &mut err);
    ExitCode::from(status.code())
}
