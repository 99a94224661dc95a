use super::library::{Listed, Wanted};
use design_world::{MemoryFile, MemoryFolder};
use fault_list::{FaultKind, StageFault, Stop};
use library_files::{LibraryFault, LoadFault, Parsed, gather, read_files};
use order_core::{List, Text};
use std::alloc::{AllocError, Global};
use std::test::Fail;

/// The name of a file, how many bytes it has, and how often it stands in the folder.
type Held = (&'static str, u64, u64);

/// What is gathered of a folder: the names of files, a limit, or a fault of the folder.
#[derive(Clone, Copy)]
enum Gathered {
    Names(&'static [&'static str]),
    TooMany(u64),
    FileTooLong(&'static str),
    LibraryTooLong(&'static str),
    Folder,
}

/// Folders, the numbers of calls on them that fail, and what is gathered.
const FOLDERS: [(&[Held], &[u64], Gathered); 10] = [
    (&[], &[], Gathered::Names(&[])),
    (
        &[
            ("b.mcdp", 2, 1),
            ("README.md", 2, 1),
            ("a.csv", 2, 1),
            ("if.x.mcdp", 2, 1),
            ("mcdp", 2, 1),
            ("row.csv", 2, 1),
            ("1.poset", 2, 1),
            ("B.poset", 2, 1),
            ("_.interface", 0, 1),
            ("a1.template", 2, 1),
        ],
        &[],
        Gathered::Names(&["B.poset", "_.interface", "a.csv", "a1.template", "b.mcdp"]),
    ),
    (
        &[("b.csv", 1, 2), ("a.csv", 1, 1)],
        &[],
        Gathered::Names(&["a.csv", "b.csv", "b.csv"]),
    ),
    (
        &[("a.csv", 0, 1_001), ("b.csv", 1_048_577, 1)],
        &[0],
        Gathered::Folder,
    ),
    (&[("a.csv", 1_048_577, 1)], &[1], Gathered::Folder),
    (&[("a.csv", 0, 1_001)], &[1], Gathered::TooMany(1_001)),
    (
        &[("a.csv", 1_048_576, 1), ("x", 1_048_577, 1)],
        &[],
        Gathered::Names(&["a.csv"]),
    ),
    (
        &[("b.csv", 1, 1), ("a.csv", 1_048_577, 1)],
        &[2],
        Gathered::FileTooLong("a.csv"),
    ),
    (
        &[("a.csv", 1_048_576, 16), ("b.csv", 0, 1), ("c.csv", 1, 1)],
        &[],
        Gathered::LibraryTooLong("c.csv"),
    ),
    (&[("a.csv", 1, 1), ("b.csv", 1, 1)], &[2], Gathered::Folder),
];

fn file_of(alloc: Global, name: &str, len: u64) -> Result<MemoryFile, AllocError> {
    let mut bytes = Vec::new(alloc);
    for _ in 0..len {
        bytes.push(b' ')?;
    }
    Ok(MemoryFile {
        name: Text::of(String::from_str(alloc, name)?),
        bytes: List::of(bytes),
    })
}

fn folder_of(alloc: Global, held: &[Held], failing: &[u64]) -> Result<MemoryFolder, AllocError> {
    let mut files = Vec::new(alloc);
    for (name, len, times) in held {
        for _ in 0..*times {
            files.push(file_of(alloc, name, *len)?)?;
        }
    }
    Ok(MemoryFolder {
        files: List::of(files),
        failing: List::of(failing.to_vec(alloc)?),
        calls: 0,
        failed: 0,
    })
}

fn have_names(files: &[MemoryFile], names: &[&str]) -> bool {
    files.len() == names.len()
        && files
            .iter()
            .zip(names)
            .all(|(file, name)| file.name.as_str() == *name)
}

fn is_gathered(answer: &Result<MemoryFolder, LoadFault>, want: Gathered) -> bool {
    match (answer, want) {
        (Ok(folder), Gathered::Names(names)) => have_names(folder.files.items(), names),
        (Err(LoadFault::Library(LibraryFault::TooManyFiles { count })), Gathered::TooMany(n)) => {
            *count == n
        }
        (
            Err(LoadFault::Library(LibraryFault::FileTooLong { file })),
            Gathered::FileTooLong(name),
        ) => { file.as_str() == name }
        (
            Err(LoadFault::Library(LibraryFault::LibraryTooLong { file })),
            Gathered::LibraryTooLong(name),
        ) => file.as_str() == name,
        (Err(LoadFault::Folder), Gathered::Folder) => true,
        _ => false,
    }
}

#[test]
fn folders_are_gathered_up_to_their_first_limit(rt: HostRuntime) -> Result<(), Fail> {
    for (held, failing, want) in FOLDERS {
        let mut folder = folder_of(rt.alloc(), held, failing)?;
        let answer = gather(rt.alloc(), &mut folder, "");
        assert!(rt; is_gathered(&answer, want));
    }
    Ok(())
}

/// Files, and the first of what is wrong with their texts, or how many of them are trees and how many tables.
const TEXTS: [(&[Listed], Result<(usize, usize), Wanted>); 7] = [
    (&[], Ok((0, 0))),
    (
        &[("a.csv", b"\xff,?"), ("p.poset", b"poset { elements a; }")],
        Ok((1, 1)),
    ),
    (
        &[
            ("p.poset", b"poset { elements a; }"),
            ("q.mcdp", b"\xff"),
            ("r.mcdp", b"?"),
        ],
        Err(("q.mcdp", FaultKind::NotText, 0)),
    ),
    (
        &[("a.csv", b"?"), ("q.mcdp", b"mcdp { ? }")],
        Err(("q.mcdp", FaultKind::BadToken, 7)),
    ),
    (
        &[("b.mcdp", b"choose { x y; }")],
        Err(("b.mcdp", FaultKind::Syntax, 11)),
    ),
    (
        &[
            ("i.interface", b"interface { }"),
            ("t.template", b"mcdp { }"),
        ],
        Err(("t.template", FaultKind::Syntax, 0)),
    ),
    (
        &[("i.interface", b"")],
        Err(("i.interface", FaultKind::Syntax, 0)),
    ),
];

/// What the files write that are gathered of a folder with these. None where they pass a limit.
fn read(
    alloc: Global,
    listed: &[Listed],
) -> Result<Option<Result<Parsed, StageFault>>, AllocError> {
    let mut files = Vec::new(alloc);
    for (name, text) in listed {
        files.push(MemoryFile {
            name: Text::of(String::from_str(alloc, name)?),
            bytes: List::of(text.to_vec(alloc)?),
        })?;
    }
    let mut folder = MemoryFolder {
        files: List::of(files),
        failing: List::of(Vec::new(alloc)),
        calls: 0,
        failed: 0,
    };
    match gather(alloc, &mut folder, "") {
        Ok(gathered) => Ok(Some(read_files(alloc, gathered.files))),
        Err(_) => Ok(None),
    }
}

/// Whether so much was read. Each table has the stem `a` and three bytes.
fn is_parsed(
    answer: &Option<Result<Parsed, StageFault>>,
    want: Result<(usize, usize), Wanted>,
) -> bool {
    match (answer, want) {
        (Some(Ok(made)), Ok((files, tables))) => {
            made.files.items().len() == files
                && made.tables.items().len() == tables
                && made.tables.items().iter().all(|table| table.stem.as_str() == "a"
                    && table.bytes.items().len() == 3)
        }
        (Some(Err(Stop::At(fault))), Err((file, kind, at))) => {
            fault.file.as_str() == file && fault.kind == kind && fault.at == at
        }
        _ => false,
    }
}

#[test]
fn texts_are_read_up_to_the_first_fault(rt: HostRuntime) -> Result<(), Fail> {
    for (listed, want) in TEXTS {
        let answer = read(rt.alloc(), listed)?;
        assert!(rt; is_parsed(&answer, want));
    }
    Ok(())
}
