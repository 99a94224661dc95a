ghost use Rattle.std.specs.Prelude.{◌≡◌, slice_get, true};
ghost use Rattle.std.specs.Option.{option_copied};
ghost use Rattle.design_model.specs.declared.design.Design.{Design};
ghost use Rattle.fault_list.specs.FirstBad.{AnswersFirst};
ghost use Rattle.library_load.specs.Accepted.{IsInLimits, IsPastLimit};
ghost use Rattle.library_load.specs.Designs.{IsDesign};
ghost use Rattle.library_load.specs.Limits.{passed};
ghost use Rattle.module_link.specs.Links.{AreModulesOf};
ghost use Rattle.name_table.specs.declared.source.SourceFile.{SourceFile as Source};
ghost use Rattle.order_core.specs.Members.{IsMember};
ghost use Rattle.reference_meaning.specs.Sources.{is_closed};

use crate::order::order_of;
use catalogue_read::files_have_one_list_of_rows;
use design_lexer::File;
use design_measure::{Measured, measures_of};
use fault_list::{Fault, FaultKind, StageFault, Stop, in_file};
use name_table::{Names, SourceFile};
use reference_meaning::{Module, modules_denote_what_files_do};
use std::alloc::Global;

/// The greatest depth of a design.
const DEEPEST: u64 = 64;

/// The greatest size of a design.
const LARGEST: u64 = 10_000;

/// The first design that passes a limit, file by file: `TooDeep` or `TooLarge` at the start of its file. No design is
/// expanded for it.
pub fn check_limits(
    alloc: Global,
    names: &Names,
    modules: &[Option<Module>],
) -> Result<(), StageFault>
    requires modules { AreModulesOf names.now.files names.now.tables names.now.types modules.now }
    requires meanings { (f : Source) → IsMember f names.now.files → is_closed f.tree ≡ true → (X : Design) × IsDesign names.now.files names.now.tables names.now.types f.stem X }
    ensures { AnswersFirst (IsInLimits names.now.files names.now.tables names.now.types) (IsPastLimit names.now.files names.now.tables names.now.types) names.now.files (λ _. Unit {0}) result }
{
    files_have_one_list_of_rows();
    modules_denote_what_files_do();
    let order = order_of(alloc, names, modules)?;
    let measured = measures_of(alloc, modules, &order)?;
    for (number, file) in names.files.items().iter().enumerate() {
        match past_limit(file, measured_at(measured.items(), number)) {
            Some(kind) => {
                return Err(in_file(alloc, &file.name, Stop::At(Fault { kind, at: 0 })));
            }
            None => {}
        }
    }
    Ok(())
}

/// What is measured of the module of this number.
fn measured_at(measured: &[Measured], number: usize) -> Option<&Measured>
    ensures { option_copied result ≡ slice_get measured.now number }
{
    measured.get(number)
}

/// The limit that a file passes, if it is a design and measures so much.
fn past_limit(file: &SourceFile, measured: Option<&Measured>) -> Option<FaultKind>
    ensures { result ≡ passed file.now (option_copied measured.entry) }
{
    match (&file.tree, measured) {
        (File::Design(_), Some(measured)) => {
            if measured.depth > DEEPEST {
                Some(FaultKind::TooDeep)
            } else if measured.size > LARGEST {
                Some(FaultKind::TooLarge)
            } else {
                None
            }
        }
        _ => None,
    }
}
