ghost use Rattle.std.specs.Prelude.{◌≡◌, ◌<◌, ◌^◌, ◌↔◌, [], IfOk, IsTrue, length};
ghost use Rattle.catalogue_read.specs.Catalogues.{HasRows};
ghost use Rattle.fault_list.specs.FirstBad.{AnswersBy};
ghost use Rattle.library_files.specs.Branches.{HasBranch};
ghost use Rattle.library_load.specs.Accepted.{IsFirstAfter, IsFirstFault};
ghost use Rattle.library_load.specs.Stages.{AreChecked, IsOf};
ghost use Rattle.module_link.specs.Links.{AreModulesOf};
ghost use Rattle.name_table.specs.Library.{AreSmall};
ghost use Rattle.order_core.specs.Pointwise.{Each, Pointwise};
ghost use Rattle.reference_check.specs.LibraryFronts.{library_faults};
ghost use Rattle.unit_check.specs.TypeFaults.{type_faults};

use crate::laws::{designs_have_meanings, references_are_resolved};
use crate::library::Library;
use crate::limits::check_limits;
use catalogue_read::{files_have_one_list_of_rows, library_rows};
use design_model::CatRow;
use fault_list::{StageFault, Stop};
use module_link::{LinkFault, modules_of};
use name_table::{Names, SourceFile, Table, build};
use order_core::{List, NoMemory};
use reference_check::check_references;
use reference_meaning::Module;
use std::alloc::Global;
use unit_check::{PortTable, check_connected, check_types};

/// The library of these files and tables, or the first fault of the stages from that of names on.
pub fn library_of(
    alloc: Global,
    files: List<SourceFile>,
    tables: List<Table>,
) -> Result<Library, StageFault>
    requires few_files { length files < 2 ^ 32 }
    requires few_tables { length tables < 2 ^ 32 }
    requires small { AreSmall files }
    requires branches { Each HasBranch files }
    ensures { AnswersBy (IsOf files tables) (IsFirstFault files tables) result }
{
    let names = build(alloc, files, tables)?;
    match checked_modules(alloc, &names) {
        Ok(modules) => Ok(Library { names, modules }),
        Err(stop) => Err(stop),
    }
}

/// The modules of a library whose names are in order, or the first fault of the later stages.
fn checked_modules(alloc: Global, names: &Names) -> Result<List<Option<Module>>, StageFault>
    requires { Each HasBranch names.now.files }
    ensures { AnswersBy (AreChecked names.now.files names.now.tables names.now.types) (IsFirstAfter names.now.files names.now.tables names.now.types) result }
{
    files_have_one_list_of_rows();
    designs_have_meanings(names);
    check_types(alloc, names)?;
    check_connected(alloc, names)?;
    let rows = library_rows(alloc, names)?;
    check_references(alloc, names)?;
    if !are_few(rows.items()) {
        return Err(Stop::Memory);
    }
    let modules = linked(alloc, names, rows)?;
    check_limits(alloc, names, modules.items())?;
    Ok(modules)
}

/// Whether each list of rows is shorter than 2^32. One that isn't counts as more than memory can hold.
fn are_few(rows: &[List<CatRow>]) -> bool
    ensures { IsTrue result ↔ Each (λ rows. length rows < 2 ^ 32) rows.now }
{
    rows.iter()
        .all(|rows| rows.items().len() <= u32::MAX as usize)
}

/// The modules of a library in which neither types nor references have a fault, where these are the rows of its files.
fn linked(
    alloc: Global,
    names: &Names,
    rows: List<List<CatRow>>,
) -> Result<List<Option<Module>>, NoMemory>
    requires types { type_faults names.now.files names.now.types ≡ [] }
    requires references { library_faults names.now.files names.now.types ≡ [] }
    requires rows { Pointwise (HasRows names.now.tables names.now.types) names.now.files rows }
    ensures { IfOk result (AreModulesOf names.now.files names.now.tables names.now.types) }
{
    references_are_resolved(names);
    let mut table = PortTable::new(alloc, names)?;
    match modules_of(alloc, names, &mut table, rows) {
        Ok(modules) => Ok(modules),
        Err(LinkFault::Memory) => Err(NoMemory),
        Err(LinkFault::Unresolved) => unreachable!(),
    }
}
