ghost use Rattle.std.specs.Prelude.{◌≡◌, ◌++◌, ◌<◌, ◌^◌, ℕ, List, IfOk, OnOk, is_some, length, map};
ghost use Rattle.std.specs.List.{flat_map};
ghost use Rattle.name_index.specs.Names.{number_of};
ghost use Rattle.name_rules.specs.References.{reference_names};
ghost use Rattle.name_table.specs.References.{branches_of, file_named, file_refers, references_from, refers};

use crate::source::SourceFile;
use design_lexer::{BodyTree, BranchTree, File, NameAt, RefTree};
use name_index::NameIndex;
use name_rules::names_of;
use order_core::NoMemory;
use std::alloc::Global;

/// The pairs of files, by their numbers, of which the first refers to the second.
pub fn references(
    alloc: Global,
    designs: &NameIndex,
    files: &[SourceFile],
) -> Result<Vec<(u32, u32)>, NoMemory>
    requires few { length files.now < 2 ^ 32 }
    ensures { IfOk result (λ pairs. pairs.items ≡ references_from (number_of designs.now) 0 files.now) }
{
    let mut pairs = Vec::new(alloc);
    for (number, file) in files.iter().enumerate() {
        add_file(alloc, designs, &file.tree, number as u32, &mut pairs)?;
    }
    Ok(pairs)
}

/// Adds a pair for each file that this one refers to.
fn add_file(
    alloc: Global,
    designs: &NameIndex,
    file: &File,
    number: u32,
    pairs: &mut Vec<(u32, u32)>,
) -> Result<(), NoMemory>
    ensures { OnOk result (pairs.new.items ≡ pairs.old.items ++ map (λ j. (number, j)) (file_refers (number_of designs.now) file.now)) }
{
    match file {
        File::Poset(_) => Ok(()),
        File::Interface(_) => Ok(()),
        File::Design(body) => {
            let hidden = NameIndex::new(alloc);
            add_branches(designs, &hidden, branches_of(body), number, pairs)
        }
        File::Template(params, body) => {
            let hidden = names_of(alloc, params.items())?;
            add_branches(designs, &hidden, branches_of(body), number, pairs)
        }
    }
}

/// The branches or instances of the body.
fn branches_of(body: &BodyTree) -> &[BranchTree]
    ensures { result.now ≡ branches_of body.now }
{
    match body {
        BodyTree::Catalogue { .. } => &[],
        BodyTree::Choose(branches) => branches.items(),
        BodyTree::Net { parts, .. } => parts.items(),
    }
}

/// Adds a pair for each name in the references of the branches that a file has.
fn add_branches(
    designs: &NameIndex,
    hidden: &NameIndex,
    branches: &[BranchTree],
    number: u32,
    pairs: &mut Vec<(u32, u32)>,
) -> Result<(), NoMemory>
    ensures { OnOk result (pairs.new.items ≡ pairs.old.items ++ map (λ j. (number, j)) (refers (number_of designs.now) (λ name. is_some (number_of hidden.now name)) branches.now)) }
{
    for branch in branches {
        add_reference(designs, hidden, &branch.reference, number, pairs)?;
    }
    Ok(())
}

/// Adds a pair for each name in the reference that a file has.
fn add_reference(
    designs: &NameIndex,
    hidden: &NameIndex,
    reference: &RefTree,
    number: u32,
    pairs: &mut Vec<(u32, u32)>,
) -> Result<(), NoMemory>
    ensures { OnOk result (pairs.new.items ≡ pairs.old.items ++ map (λ j. (number, j)) (flat_map (file_named (number_of designs.now) (λ name. is_some (number_of hidden.now name))) (reference_names reference.now))) }
{
    add_name(designs, hidden, &reference.name, number, pairs)?;
    for argument in reference.arguments.items() {
        add_reference(designs, hidden, &argument.reference, number, pairs)?;
    }
    Ok(())
}

/// Adds a pair for the file of this name, unless the name is hidden.
fn add_name(
    designs: &NameIndex,
    hidden: &NameIndex,
    name: &NameAt,
    number: u32,
    pairs: &mut Vec<(u32, u32)>,
) -> Result<(), NoMemory>
    ensures { OnOk result (pairs.new.items ≡ pairs.old.items ++ map (λ j. (number, j)) (file_named (number_of designs.now) (λ hides. is_some (number_of hidden.now hides)) name.now)) }
{
    if hidden.get(name.name.as_str()).is_none()
        && let Some(file) = designs.get(name.name.as_str())
    {
        pairs.push((number, file))?;
    }
    Ok(())
}
