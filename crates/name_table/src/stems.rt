ghost use Rattle.std.specs.Prelude.{◌≡◌, ◌<◌, ◌^◌, ◌++◌, ◌∷◌, ℕ, List, [], cond, is_some, length};
ghost use Rattle.fault_list.specs.Answers.{Answers};
ghost use Rattle.fault_list.specs.Faults.{fault_if};
ghost use Rattle.name_index.specs.Names.{number_of, with_name};
ghost use Rattle.name_table.specs.Files.{table_place};
ghost use Rattle.name_table.specs.Listing.{is_before, is_taken, listed_twice, listing_faults, taken_stems, taken_tables};
ghost use Rattle.name_table.specs.Stems.{AreStems, AreTableStems};
ghost use Rattle.name_table.specs.declared.source.SourceFile.{SourceFile};

use crate::source::{SourceFile, Table};
use design_lexer::File;
use fault_list::{Fault, FaultKind, FileFault, StageFault, Stop, in_file};
use name_index::NameIndex;
use order_core::Text;
use std::alloc::Global;

/// The stems of a library's files, by their spaces of names, each with the number of its file.
#[derive(Drop)]
pub struct FileStems {
    pub designs: NameIndex,
    pub interfaces: NameIndex,
    pub posets: NameIndex,
}

/// The stems of the files and those of the tables, or the first file that is listed twice.
pub fn stems_of(
    alloc: Global,
    files: &[SourceFile],
    tables: &[Table],
) -> Result<(FileStems, NameIndex), StageFault>
    requires few_files { length files.now < 2 ^ 32 }
    requires few_tables { length tables.now < 2 ^ 32 }
    ensures { Answers (listing_faults files.now tables.now) (λ made. AreStems files.now made.0 × AreTableStems tables.now made.1) result }
{
    let files = file_stems(alloc, files);
    let tables = table_stems(alloc, tables);
    match (files, tables) {
        (Ok(files), Ok(tables)) => Ok((files, tables)),
        (Ok(_), Err(stop)) => Err(stop),
        (Err(stop), Ok(_)) => Err(stop),
        (Err(Stop::At(a)), Err(Stop::At(b))) => Err(Stop::At(first_by_file(a, b))),
        (Err(_), Err(_)) => Err(Stop::Memory),
    }
}

/// Of two faults that of the file whose name comes first.
fn first_by_file(a: FileFault, b: FileFault) -> FileFault
    ensures { result ≡ cond (is_before b.file a.file) b a }
{
    if b.file.as_str().cmp(a.file.as_str()).is_lt() {
        b
    } else {
        a
    }
}

/// The stems of the files, or the first one whose stem is taken.
fn file_stems(alloc: Global, files: &[SourceFile]) -> Result<FileStems, StageFault>
    requires few { length files.now < 2 ^ 32 }
    ensures { Answers (taken_stems [] files.now) (AreStems files.now) result }
{
    let mut stems = FileStems {
        designs: NameIndex::new(alloc),
        interfaces: NameIndex::new(alloc),
        posets: NameIndex::new(alloc),
    };
    for (number, file) in files.iter().enumerate() {
        add_stem(alloc, &mut stems, file, number as u32)?;
    }
    Ok(stems)
}

/// Adds the stem of a file to those of its space, unless it is there.
fn add_stem(
    alloc: Global,
    stems: &mut FileStems,
    file: &SourceFile,
    number: u32,
) -> Result<(), StageFault>
    ensures { (before : List SourceFile) → AreStems before stems.old → length before ≡ number → Answers (fault_if (is_taken before file.now) (listed_twice file.now.name)) (λ _. AreStems (before ++ file.now ∷ []) stems.new) result }
{
    match &file.tree {
        File::Poset(_) => add_name(alloc, &mut stems.posets, &file.stem, number, &file.name),
        File::Interface(_) => {
            add_name(alloc, &mut stems.interfaces, &file.stem, number, &file.name)
        }
        File::Design(_) => add_name(alloc, &mut stems.designs, &file.stem, number, &file.name),
        File::Template(_, _) => {
            add_name(alloc, &mut stems.designs, &file.stem, number, &file.name)
        }
    }
}

/// The stems of the tables, or the first one that stands twice.
fn table_stems(alloc: Global, tables: &[Table]) -> Result<NameIndex, StageFault>
    requires few { length tables.now < 2 ^ 32 }
    ensures { Answers (taken_tables [] tables.now) (AreTableStems tables.now) result }
{
    let mut stems = NameIndex::new(alloc);
    for (number, table) in tables.iter().enumerate() {
        add_name(alloc, &mut stems, &table.stem, number as u32, &table.name)?;
    }
    Ok(stems)
}

/// Adds the stem with its number, unless it is there. Then the file of this name is listed twice.
fn add_name(
    alloc: Global,
    stems: &mut NameIndex,
    stem: &Text,
    number: u32,
    file: &Text,
) -> Result<(), StageFault>
    ensures { Answers (fault_if (is_some (number_of stems.old stem.now)) (listed_twice file.now)) (λ _. stems.new ≡ with_name stems.old stem.now number) result }
{
    if stems.add(alloc, stem.as_str(), number)?.is_some() {
        let kind = FaultKind::Twice;
        return Err(in_file(alloc, file, Stop::At(Fault { kind, at: 0 })));
    }
    Ok(())
}
