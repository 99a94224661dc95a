use crate::run::run;
use crate::status::Status;
use design_world::{MemoryFile, MemoryFolder, MemorySink, MemorySource};
use order_core::{List, Text};
use std::alloc::{AllocError, Global};
use std::process::Abort;
use std::test::Fail;

mod libraries;
mod world;

const MOTORS: &str =
    "catalogue { provides lift [Nat]; requires mass [Nat]; requires cost [Nat]; row a: 100 -> 10, 5; row b: 120 -> 8, 7; row c: 200 -> 12, 7; }";

const SAME: &str =
    "catalogue { provides lift [Nat]; requires mass [Nat]; row a: 100 -> 10; row b: 120 -> 10; }\n";

const ROUNDING: &str = "catalogue { provides x [g]; requires y [g]; row a: 1.9 g -> 1.1 g; }";

const UNITS: &str =
    "catalogue { provides x [kg]; requires y [kg]; requires z [kg]; requires w [Nat]; row a: 1 kg -> 567 g, 2 kg, 3.5; }";

/// How a run ended, and what it left.
#[derive(Drop)]
struct Ran {
    status: Status,
    line: Text,
    written: List<u8>,
    takes: u64,
}

fn file(alloc: Global, name: &str, text: &str) -> Result<MemoryFile, AllocError> {
    Ok(MemoryFile {
        name: Text::of(String::from_str(alloc, name)?),
        bytes: List::of(Vec::from_slice(alloc, text.as_bytes())?),
    })
}

/// A folder whose calls of these numbers fail.
fn folder(
    alloc: Global,
    files: Vec<MemoryFile>,
    failing: &[u64],
) -> Result<MemoryFolder, AllocError> {
    Ok(MemoryFolder {
        files: List::of(files),
        failing: List::of(Vec::from_slice(alloc, failing)?),
        calls: 0,
        failed: 0,
    })
}

/// Runs with a sink that takes four bytes at a time, whose calls of these numbers fail.
fn run_on(
    alloc: Global,
    words: &[&str],
    mut folder: MemoryFolder,
    failing: &[u64],
) -> Result<Ran, Fail> {
    let mut input = MemorySource {
        bytes: List::of(Vec::new(alloc)),
        piece: 1,
        failing: List::of(Vec::new(alloc)),
        calls: 0,
        failed: 0,
    };
    let mut out = MemorySink {
        written: List::of(Vec::new(alloc)),
        piece: 4,
        failing: List::of(Vec::from_slice(alloc, failing)?),
        calls: 0,
        failed: 0,
    };
    let status = run(alloc, words, &mut folder, &mut input, &mut out);
    let line = status.text(alloc)?;
    Ok(Ran {
        status,
        line,
        written: out.written,
        takes: input.calls,
    })
}

fn expect(rt: &impl Abort, ran: &Ran, code: u8, line: &str, written: &str) {
    assert_eq!(rt; ran.status.code(), code);
    assert_eq!(rt; ran.line.as_str(), line);
    assert_eq!(rt; ran.written.items(), written.as_bytes());
    assert_eq!(rt; ran.takes, 0);
}

/// Runs with the worked motors and devices that never fail.
fn run_on_motors(alloc: Global, words: &[&str]) -> Result<Ran, Fail> {
    let files = vec![in alloc; file(alloc, "motors.mcdp", MOTORS)?]?;
    run_on(alloc, words, folder(alloc, files, &[])?, &[])
}

#[test]
fn motors(rt: HostRuntime) -> Result<(), Fail> {
    let done = run_on_motors(rt.alloc(), &["solve", "lib", "motors", "90"])?;
    expect(&rt, &done, 0, "", "finished 2\n8, 7\n10, 5\n");
    Ok(())
}

#[test]
fn motors_too_heavy(rt: HostRuntime) -> Result<(), Fail> {
    let too_heavy = run_on_motors(rt.alloc(), &["solve", "lib", "motors", "201"])?;
    expect(&rt, &too_heavy, 0, "", "infeasible\n");
    Ok(())
}

#[test]
fn same_mass(rt: HostRuntime) -> Result<(), Fail> {
    let alloc = rt.alloc();
    let files = vec![in alloc;
        file(alloc, "notes.txt", "not read")?,
        file(alloc, "same.mcdp", SAME)?,
    ]?;
    let words = ["solve", "-", "same", "90"];
    let done = run_on(alloc, &words, folder(alloc, files, &[])?, &[])?;
    expect(&rt, &done, 0, "", "finished 1\n10\n");
    Ok(())
}

/// Runs on the one design, with devices that never fail.
fn run_on_design(alloc: Global, text: &str, query: &str) -> Result<Ran, Fail> {
    let files = vec![in alloc; file(alloc, "design.mcdp", text)?]?;
    let words = ["solve", "lib", "design", query];
    run_on(alloc, &words, folder(alloc, files, &[])?, &[])
}

#[test]
fn rounding(rt: HostRuntime) -> Result<(), Fail> {
    let alloc = rt.alloc();
    let done = run_on_design(alloc, ROUNDING, "0.5 g")?;
    expect(&rt, &done, 0, "", "finished 1\n2 g\n");
    let none = run_on_design(alloc, ROUNDING, "1.5 g")?;
    expect(&rt, &none, 0, "", "infeasible\n");
    Ok(())
}

#[test]
fn units(rt: HostRuntime) -> Result<(), Fail> {
    let alloc = rt.alloc();
    let done = run_on_design(alloc, UNITS, "999.5 g")?;
    expect(&rt, &done, 0, "", "finished 1\n567/1000 kg, 2 kg, 4\n");
    let none = run_on_design(alloc, UNITS, "1.000001 kg")?;
    expect(&rt, &none, 0, "", "infeasible\n");
    let time = run_on_design(alloc, UNITS, "1 s")?;
    expect(&rt, &time, 5, "query: wrong value 0", "");
    let plain = run_on_design(alloc, UNITS, "1")?;
    expect(&rt, &plain, 5, "query: wrong value 0", "");
    Ok(())
}

#[test]
fn small_refusals(rt: HostRuntime) -> Result<(), Fail> {
    let alloc = rt.alloc();
    let empty = folder(alloc, vec![in alloc]?, &[])?;
    let no_design = run_on(alloc, &["solve", "lib", "motors", "90"], empty, &[])?;
    expect(&rt, &no_design, 5, "query: no design", "");
    let lines = [
        ("90 g", "query: wrong value 0"),
        ("90, 1", "query: 2 values for 1 ports"),
        ("90,", "query: syntax at 3"),
    ];
    for (query, line) in lines {
        let refused = run_on_motors(alloc, &["solve", "lib", "motors", query])?;
        expect(&rt, &refused, 5, line, "");
    }
    Ok(())
}

#[test]
fn refused_words(rt: HostRuntime) -> Result<(), Fail> {
    let usage =
        "usage: mcdpl solve|explain|certify FOLDER NAME QUERY [--rounds N], check FOLDER NAME QUERY, show FOLDER NAME, generate START SIZE";
    let too_few = run_on_motors(rt.alloc(), &["solve", "lib", "motors"])?;
    expect(&rt, &too_few, 2, usage, "");
    Ok(())
}

#[test]
fn failing_devices(rt: HostRuntime) -> Result<(), Fail> {
    let alloc = rt.alloc();
    let words = ["solve", "lib", "motors", "90"];
    let files = vec![in alloc; file(alloc, "motors.mcdp", MOTORS)?]?;
    let short = run_on(alloc, &words, folder(alloc, files, &[])?, &[1])?;
    expect(&rt, &short, 9, "sink fault", "fini");
    let files = vec![in alloc; file(alloc, "motors.mcdp", MOTORS)?]?;
    let unread = run_on(alloc, &words, folder(alloc, files, &[1])?, &[])?;
    expect(&rt, &unread, 7, "folder fault", "");
    assert_eq!(rt; Status::Memory.text(alloc)?.as_str(), "out of memory");
    assert_eq!(rt; Status::Memory.code(), 70);
    Ok(())
}
