ghost use Rattle.std.specs.Prelude.{◌≡◌, [], Some, map, slice_get};
ghost use Rattle.std.specs.List.{flat_map};
ghost use Rattle.std.specs.Option.{option_copied};
ghost use Rattle.fault_list.specs.Answers.{Answers};
ghost use Rattle.fault_list.specs.Faults.{in_file};
ghost use Rattle.reference_check.specs.LibraryFronts.{AreFrontsOf, front_of, library_faults, tree_faults, wanted_of};
ghost use Rattle.reference_meaning.specs.Sources.{body_of};
ghost use Rattle.unit_check.specs.Declaring.{params_of};
ghost use Rattle.unit_check.specs.TypeFaults.{file_port_faults};

use crate::body::check_body;
use crate::front::Front;
use crate::library::fronts_of;
use crate::reference::{Scope, front_at};
use design_lexer::{BodyTree, File};
use fault_list::{StageFault, in_file};
use name_table::{Names, SourceFile};
use std::alloc::Global;
use unit_check::PortTable;

/// The body of a design or a template.
fn body_of(tree: &File) -> Option<&BodyTree>
    ensures { option_copied result ≡ body_of tree.now }
{
    match tree {
        File::Design(body) => Some(body),
        File::Template(_, body) => Some(body),
        _ => None,
    }
}

/// The first of what is wrong with the references of a file.
fn check_file(
    alloc: Global,
    names: &Names,
    fronts: &[Option<Front>],
    number: u32,
    file: &SourceFile,
) -> Result<(), StageFault>
    requires fronts { AreFrontsOf names.now.files names.now.types fronts.now }
    requires number { slice_get names.now.files number ≡ Some file.now }
    ensures { Answers (in_file file.now.name (tree_faults (front_of names.now.files names.now.types) (map (wanted_of names.now.files names.now.types) (params_of file.now.tree)) file.now.tree)) (λ _. Unit {0}) result }
{
    let Some(body) = body_of(&file.tree) else {
        return Ok(());
    };
    let Some(own) = front_at(fronts, number) else {
        unreachable!()
    };
    let scope = Scope { names, fronts, own };
    match check_body(alloc, &scope, body) {
        Ok(()) => Ok(()),
        Err(stop) => Err(in_file(alloc, &file.name, stop)),
    }
}

/// The first of what is wrong with the references of the files, whose fronts are known.
fn check_files(alloc: Global, names: &Names, fronts: &[Option<Front>]) -> Result<(), StageFault>
    requires { AreFrontsOf names.now.files names.now.types fronts.now }
    ensures { Answers (library_faults names.now.files names.now.types) (λ _. Unit {0}) result }
{
    for (number, file) in names.files.items().iter().enumerate() {
        check_file(alloc, names, fronts, number as u32, file)?;
    }
    Ok(())
}

/// The first of what is wrong with the references of a library whose ports have no fault.
///
/// A reference has `Unknown`, `ArgumentUnknown` at each argument that names no parameter, `ArgumentMissing` at its own
/// name, and then for each argument that argument's own faults and `PortsDiffer`. A choice has `PortsDiffer` at each
/// branch that has other ports than the first.
pub fn check_references(alloc: Global, names: &Names) -> Result<(), StageFault>
    requires { flat_map (file_port_faults names.now.types) names.now.files ≡ [] }
    ensures { Answers (library_faults names.now.files names.now.types) (λ _. Unit {0}) result }
{
    let mut table = PortTable::new(alloc, names)?;
    let fronts = fronts_of(alloc, names, &mut table)?;
    check_files(alloc, names, fronts.items())
}
