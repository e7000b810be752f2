//! The program: the words, the files, standard input and standard output, handed to the top call.
#![tactic(auto)]

use qsr_outside::NoGate;
use qsr_real::{FileShelf, StdSink, StdSource};
use qsr_top::{Status, run};
use std::alloc::Global;
use std::process::ExitCode;
use std::rt::Env;
use std::{env, io};

/// The bytes of the block that is freed so that the allocator keeps others.
const KEPT: usize = 16 << 20;

/// Has glibc's allocator keep memory that is freed: it keeps as much as twice the largest block that it gave back. Else
/// each batch of a script would give its pages back, and the next one would ask for them again.
fn keep_freed_memory(alloc: Global) {
    let block: Result<Vec<u8>, _> = Vec::with_capacity(alloc, KEPT);
    drop(block);
}

/// The arguments after the program's name.
fn arguments(rt: &(impl Env + AllocGlobal)) -> io::Result<Vec<String>> {
    let mut words = Vec::new(rt.alloc());
    for word in env::args(rt)?.skip(1) {
        words.push(word)?;
    }
    Ok(words)
}

fn main(rt: HostRuntime) -> ExitCode {
    keep_freed_memory(rt.alloc());
    let words = match arguments(&rt) {
        Ok(words) => words,
        Err(error) if error.kind() == io::ErrorKind::OutOfMemory => {
            return ExitCode::from(Status::Memory.code());
        }
        Err(_) => return ExitCode::from(Status::Usage.code()),
    };
    let mut shelf = FileShelf::new(&rt);
    let mut source = StdSource::new(rt.stdin());
    let mut sink = StdSink::new(rt.stdout());
    let status = run(
        &rt,
        rt.alloc(),
        &words,
        &mut shelf,
        &mut source,
        &mut sink,
        &NoGate,
    );
    ExitCode::from(status.code())
}
