//! `ostore FILE WORDS`: opens FILE as the disk, and does what the words ask for with standard input
//! and standard output. FILE `-` is an empty disk in memory.
#![tactic(auto)]

use ostore_base::{Disk, FileDisk, MemDisk, OutOfMemory, Sink, Source, StdSink, StdSource};
use ostore_cli::{Mixed, OpenGate, Outcome, Words, ostore};
use std::alloc::Global;
use std::env;
use std::fs::File;
use std::io::ErrorKind;
use std::process::ExitCode;
use std::rt::{Env, Files};
use std::sync::Wait;
use std::thread::Threads;

/// What the command line says: the file, and the words after it.
#[derive(Drop)]
struct CommandLine {
    file: String,
    words: Words,
}

/// Why there is nothing to run.
enum LineFault {
    /// There is no word, or one that is no text.
    NoWords,
    OutOfMemory,
}

impl From<OutOfMemory> for LineFault {
    fn from(_refused: OutOfMemory) -> LineFault {
        LineFault::OutOfMemory
    }
}

fn command_line<R: Env + AllocGlobal>(rt: &R) -> Result<CommandLine, LineFault> {
    let mut args = match env::args(rt) {
        Ok(args) => args,
        Err(e) if e.kind() == ErrorKind::OutOfMemory => return Err(LineFault::OutOfMemory),
        Err(_) => return Err(LineFault::NoWords),
    };
    let _program = args.next();
    let Some(file) = args.next() else {
        return Err(LineFault::NoWords);
    };
    let mut words = Words::new(rt.alloc());
    for word in args {
        words.push(word.as_str())?;
    }
    Ok(CommandLine { file, words })
}

/// Serves the words over a disk, and gives the status.
fn serve<R: Threads + Wait + Copy + Send + Sync, S: Source, K: Sink, D: Disk + Send + Drop>(
    rt: R,
    alloc: Global,
    words: &Words,
    source: &mut S,
    sink: &mut K,
    disk: D,
) -> u8 {
    let Outcome { status, disk } = ostore(rt, alloc, words, source, sink, disk, &Mixed, &OpenGate);
    drop(disk);
    status
}

/// Serves a command line over its file, and gives the status.
fn serve_line<
    R: Files<File = File> + Print + Threads + Wait + Copy + Send + Sync,
    S: Source,
    K: Sink,
>(rt: R, alloc: Global, line: &CommandLine, source: &mut S, sink: &mut K) -> u8 {
    let file = line.file.as_str();
    if file == "-" {
        let disk = MemDisk::new(Vec::new(alloc), Vec::new(alloc));
        return serve(rt, alloc, &line.words, source, sink, disk);
    }
    match FileDisk::open(&rt, file) {
        Ok(disk) => serve(rt, alloc, &line.words, source, sink, disk),
        Err(_) => {
            let _ = println!(rt; "cannot open {file}");
            5
        }
    }
}

fn main(rt: HostRuntime) -> ExitCode {
    let status = match command_line(&rt) {
        Ok(line) => {
            let mut source = StdSource::new(rt.stdin());
            let mut sink = StdSink::new(rt.stdout());
            serve_line(rt, rt.alloc(), &line, &mut source, &mut sink)
        }
        Err(LineFault::NoWords) => {
            let _ = println!(rt; "words refused");
            2
        }
        Err(LineFault::OutOfMemory) => {
            let _ = println!(rt; "out of memory");
            8
        }
    };
    ExitCode::from(status)
}
