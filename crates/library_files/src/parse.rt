ghost use Rattle.std.specs.Prelude.{◌≤◌, IfOk, IsTrue, length, map};
ghost use Rattle.fault_list.specs.FirstBad.{AnswersFirst};
ghost use Rattle.library_files.specs.Names.{is_recognised};
ghost use Rattle.library_files.specs.Parsed.{AreParsed, HasTextFault, IsWritten};
ghost use Rattle.name_table.specs.Library.{AreSmall};
ghost use Rattle.order_core.specs.Pointwise.{Each};

use crate::source::{Made, made_of};
use design_world::MemoryFile;
use fault_list::{StageFault, Stop};
use name_table::{SourceFile, Table, are_small};
use order_core::List;
use std::alloc::Global;

/// The files and the tables of a library, as they were read.
#[derive(Drop)]
pub struct Parsed {
    pub files: List<SourceFile>,
    pub tables: List<Table>,
}

/// What the files of a library write, or the first of what is wrong with the text of one. Tables are taken as they are.
///
/// A file that isn't a table has one of `NotText`, `BadToken` and `Syntax`, with its name. Each file's bytes are dropped as
/// soon as it is parsed, and those of a table move into it.
pub fn read_files(alloc: Global, files: List<MemoryFile>) -> Result<Parsed, StageFault>
    requires { Each (λ name. IsTrue (is_recognised name)) (map (λ file. file.name) files) }
    ensures read { AnswersFirst IsWritten HasTextFault files (λ made. AreParsed files made × AreSmall made.files) result }
    ensures few_files { IfOk result (λ made. length made.files ≤ length files) }
    ensures few_tables { IfOk result (λ made. length made.tables ≤ length files) }
{
    let mut sources = Vec::new(alloc);
    let mut tables = Vec::new(alloc);
    for file in files.into_vec() {
        match made_of(alloc, file) {
            Ok(Made::Source(source)) => sources.push(source)?,
            Ok(Made::Table(table)) => tables.push(table)?,
            Err(stop) => return Err(stop),
        }
    }
    // No file of 1 MiB has a list of 2^32 members.
    if !are_small(&sources) {
        return Err(Stop::Memory);
    }
    Ok(Parsed {
        files: List::of(sources),
        tables: List::of(tables),
    })
}
