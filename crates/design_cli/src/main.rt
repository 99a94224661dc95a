//! The program `mcdpl`: the least resources for a wanted functionality, from a folder of design files.
#![tactic(auto)]

mod answer;
mod laws;
mod lines;
mod report;
mod run;
mod status;
#[cfg(test)]
mod tests;
mod words;

use design_world::{HostFolder, HostSink, HostSource};
use run::run;
use status::Status;
use std::alloc::AllocError;
use std::env;
use std::io::ErrorKind;
use std::process::ExitCode;

fn main(rt: HostRuntime) -> ExitCode {
    let status = answered(&rt);
    complain(&rt, &status);
    ExitCode::from(status.code())
}

/// Runs on the words, the folders and the streams of the process.
fn answered(rt: &HostRuntime) -> Status {
    let words = match env::args(rt) {
        Ok(words) => words,
        Err(error) if error.kind() == ErrorKind::OutOfMemory => return Status::Memory,
        Err(_) => return Status::Usage,
    };
    answered_words(rt, words).unwrap_or(Status::Memory)
}

/// The first of the words is the program's name.
fn answered_words(rt: &HostRuntime, words: env::Args) -> Result<Status, AllocError> {
    let words: Vec<String> = words.skip(1).collect(rt.alloc())?;
    let words: Vec<&str> = words.iter().map(|word| word.as_str()).collect(rt.alloc())?;
    let mut folder = HostFolder { rt, failed: 0 };
    let mut input = HostSource {
        from: rt.stdin(),
        failed: 0,
    };
    let mut out = HostSink {
        to: rt.stdout(),
        failed: 0,
    };
    Ok(run(rt.alloc(), &words, &mut folder, &mut input, &mut out))
}

/// Says on standard error why nothing, or not all, was written. Where that fails too, the exit code alone says it.
fn complain(rt: &HostRuntime, status: &Status) {
    let Ok(line) = status.text(rt.alloc()) else {
        return;
    };
    if !line.as_str().is_empty() {
        let _ = eprintln!(rt; "{}", line.as_str());
    }
}
