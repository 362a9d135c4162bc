//! The program: makes the streams and the disk of a run, makes the top call, and says on standard error why a run ended.
#![tactic(auto)]

mod input;
mod progress;
mod reason;
mod remembered;
mod usage;

use input::InputFile;
use progress::Watched;
use reason::{CidText, Reason};
use remembered::Remembered;
use ss_app::{Exit, run_alone};
use ss_disk::{Access, Disk, FolderDisk};
use ss_io::{Sink, Source, StdSink, StdSource};
use std::alloc::AllocError;
use std::env;
use std::fmt::Display;
use std::io::{self, BufWriter, ErrorKind, IsTerminal, Write};
use std::process::ExitCode;
use std::rt::Env;

/// The bytes of output that are buffered before they are written.
const OUTPUT_BYTES: usize = 65536;

/// The folder whose files are the disk.
const FOLDER: &str = ".";

/// The status of a run that is out of memory.
const NO_MEMORY: u8 = 3;

/// What turns progress off, in the environment.
const OFF: [&str; 4] = ["no", "0", "off", "false"];

fn main(rt: HostRuntime) -> ExitCode {
    match run(&rt) {
        Some(status) => ExitCode::from(status),
        None => {
            // The status says it too, where the line is not taken.
            let _ = io::writer(&rt).write_all(b"error: no memory\n");
            ExitCode::from(NO_MEMORY)
        }
    }
}

// Runs the program in the current folder, and answers its status, or None where it is out of memory before it begins.
fn run(rt: &HostRuntime) -> Option<u8> {
    let given = words(rt).ok()?;
    let words = given.as_deref().unwrap_or(&[]);
    let disk = FolderDisk::new(rt.alloc(), rt.clone().ok()?, FOLDER, access(words)).ok()?;
    let mut source = StdSource::new(rt.reader());
    let output = BufWriter::with_capacity(rt.alloc(), OUTPUT_BYTES, io::writer(rt)).ok()?;
    let mut sink = StdSink::new(output);
    let exit = run_explained(rt, given.as_deref(), &mut source, &mut sink, disk)?;
    report(rt, "", exit.disk.failure());
    report(rt, "standard input: ", source.failure());
    report(rt, "standard output: ", sink.failure());
    Some(exit.status)
}

// Makes the top call, and says what its last line means; None where there is no memory for it. The words are none where they
// are not text.
fn run_explained<S: Source, K: Sink, D: Disk + Drop>(
    rt: &HostRuntime,
    given: Option<&[String]>,
    source: &mut S,
    sink: &mut K,
    disk: D,
) -> Option<Exit<D>> {
    let words = given.unwrap_or(&[]);
    let mut remembered = Remembered::new(rt.alloc(), sink).ok()?;
    let input = input_of(rt, words);
    let exit = if is_watched(rt, words) {
        let mut watched = Watched::new(rt, source, input.map(|input| input.len()));
        let exit = run_alone(rt.alloc(), words, &mut watched, &mut remembered, disk);
        watched.clear();
        exit
    } else {
        run_alone(rt.alloc(), words, source, &mut remembered, disk)
    };
    explain(rt, given, remembered.last_line(), input);
    Some(exit)
}

// What the disk is for: `info` reads, and a disk for reading touches nothing where it cannot write.
fn access(words: &[String]) -> Access {
    if is_command(words, "info") {
        Access::Read
    } else {
        Access::Write
    }
}

fn is_command(words: &[String], name: &str) -> bool {
    words.first().is_some_and(|word| word.as_str() == name)
}

// Standard input, if an import reads it and it is a file.
fn input_of(rt: &HostRuntime, words: &[String]) -> Option<InputFile> {
    if is_command(words, "import") {
        InputFile::of(rt)
    } else {
        None
    }
}

// Whether the run is an import that is watched: its standard error is a terminal, and the environment does not turn progress
// off.
fn is_watched(rt: &HostRuntime, words: &[String]) -> bool {
    let is_off = env::var(rt, "SPLITSTORE_PROGRESS").is_ok_and(|value| is_off(value.as_str()));
    is_command(words, "import") && !is_off && rt.stderr().is_terminal()
}

fn is_off(value: &str) -> bool {
    OFF.contains(&value)
}

// Says in words why a run ended, where its last line says it in numbers.
fn explain<'a>(
    rt: &HostRuntime,
    words: Option<&'a [String]>,
    line: Option<&'a str>,
    input: Option<InputFile>,
) {
    let Some(line) = line else {
        return;
    };
    let Some(reason) = Reason::of(words, line) else {
        return;
    };
    let refused = match (reason.refused_section(), input) {
        (Some(offset), Some(input)) => input.cid_of_section(rt, offset),
        _ => None,
    };
    let _ = match refused {
        Some(cid) => eprintln!(rt; "splitstore: {reason}: {}", CidText(cid)),
        None if reason.is_of_folder() => match env::current_dir(rt) {
            Ok(folder) => eprintln!(rt; "splitstore: {}: {reason}", folder.as_str()),
            Err(_) => eprintln!(rt; "splitstore: {reason}"),
        },
        None => eprintln!(rt; "splitstore: {reason}"),
    };
}

// Says why something failed, where it has. That standard error takes the line is not needed for anything.
fn report<F: Display>(rt: &impl Eprint, what: &str, failure: Option<&F>) {
    if let Some(failure) = failure {
        let _ = eprintln!(rt; "splitstore: {what}{failure}");
    }
}

// The words behind the program's name; none where they are not text.
fn words(rt: &(impl Env + AllocGlobal)) -> Result<Option<Vec<String>>, AllocError> {
    let all = match env::args(rt) {
        Ok(all) => all,
        Err(error) => match error.kind() {
            ErrorKind::OutOfMemory => return Err(AllocError),
            _ => return Ok(None),
        },
    };
    let mut words = Vec::new(rt.alloc());
    for word in all.skip(1) {
        words.push(word)?;
    }
    Ok(Some(words))
}
