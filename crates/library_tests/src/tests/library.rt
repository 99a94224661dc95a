use design_lexer::lex;
use design_parser::{FileKind, parse_file};
use fault_list::{FaultKind, StageFault, Stop};
use name_table::{Names, SourceFile, Table, are_small, build};
use order_core::{List, Text};
use std::alloc::{AllocError, Global};
use unit_check::check_types;

/// The name of a file, and its text.
pub type Listed = (&'static str, &'static [u8]);

/// A fault: its file, its kind and its place.
pub type Wanted = (&'static str, FaultKind, u64);

/// Files that nets refer to, in the order of their names.
const SHELF: [Listed; 13] = [
    (
        "c.mcdp",
        b"catalogue { provides a [g]; requires b [g]; row x: 1 g -> 2 g; }",
    ),
    (
        "d.mcdp",
        b"catalogue { provides a [s]; requires b [s]; row x: 1 s -> 2 s; }",
    ),
    ("i.interface", b"interface { requires b [mA]; }"),
    ("j.interface", b"interface { requires b [cent]; }"),
    (
        "m.mcdp",
        b"catalogue { provides lift [g]; requires mass [kg]; requires cost [USD]; row x: 2 g -> 1 g, 1 USD; }",
    ),
    ("one.mcdp", b"choose { x: c; y: m; z: d; }"),
    ("other.mcdp", b"choose { x: one; y: d; }"),
    ("p.poset", b"poset { elements a, b, c; a <= b; }"),
    ("q.poset", b"poset { elements a; }"),
    (
        "t.template",
        b"template<p: i> mcdp { requires b [bit]; instance u = p; ignore u.b; b >= 1 bit; }",
    ),
    ("third.mcdp", b"choose { x: t<p: c>; y: c; }"),
    ("v.template", b"template<p: i> choose { x: p; y: c; }"),
    ("w.template", b"template<c: j, d: i> choose { x: d; y: c; }"),
];

/// The files that nets refer to, and this one.
pub fn beside(alloc: Global, file: Listed) -> Result<Vec<Listed>, AllocError> {
    let mut listed = Vec::from_array(alloc, SHELF)?;
    listed.push(file)?;
    Ok(listed)
}

/// The kind that the ending of a name says, if it isn't that of a table, and the length of the ending.
fn kind_of(name: &str) -> (Option<FileKind>, usize) {
    if name.ends_with(".poset") {
        (Some(FileKind::Poset), 6)
    } else if name.ends_with(".interface") {
        (Some(FileKind::Interface), 10)
    } else if name.ends_with(".mcdp") {
        (Some(FileKind::Design), 5)
    } else if name.ends_with(".template") {
        (Some(FileKind::Template), 9)
    } else {
        (None, 4)
    }
}

fn text_of(alloc: Global, text: &str) -> Option<Text> {
    Some(Text::of(String::from_str(alloc, text).ok()?))
}

/// Adds the file to those of its kind.
fn add(
    alloc: Global,
    (name, text): Listed,
    files: &mut Vec<SourceFile>,
    tables: &mut Vec<Table>,
) -> Option<()> {
    let (kind, ending) = kind_of(name);
    let stem = text_of(alloc, name.get(..name.len().checked_sub(ending)?)?)?;
    let name = text_of(alloc, name)?;
    match kind {
        None => {
            let bytes = List::of(Vec::new(alloc));
            tables.push(Table { name, stem, bytes }).ok()
        }
        Some(kind) => {
            let tokens = lex(alloc, text).ok()?;
            let tree = parse_file(alloc, kind, text, &tokens).ok()?;
            files.push(SourceFile { name, stem, tree }).ok()
        }
    }
}

/// What `build` answers for the files. None where a text can't be read.
pub fn built(alloc: Global, listed: &[Listed]) -> Option<Result<Names, StageFault>> {
    let mut files = Vec::new(alloc);
    let mut tables = Vec::new(alloc);
    for file in listed {
        add(alloc, *file, &mut files, &mut tables)?;
    }
    if files.len() > 1000 || tables.len() > 1000 || !are_small(files.as_slice()) {
        return None;
    }
    Some(build(alloc, List::of(files), List::of(tables)))
}

/// What `check_types` answers for the files. None where their names aren't in order.
pub fn typed(alloc: Global, listed: &[Listed]) -> Option<Result<(), StageFault>> {
    let names = built(alloc, listed)?.ok()?;
    Some(check_types(alloc, &names))
}

/// Whether the answer is the fault, or none where none is wanted.
pub fn is_wanted<T: Drop>(answer: Option<Result<T, StageFault>>, want: Option<Wanted>) -> bool {
    match (answer, want) {
        (Some(Ok(_)), None) => true,
        (Some(Err(Stop::At(fault))), Some((file, kind, at))) => {
            fault.file.as_str() == file && fault.kind == kind && fault.at == at
        }
        _ => false,
    }
}
