ghost use Rattle.std.specs.Prelude.{◌≡◌, ◌++◌, ◌∷◌, ◌<◌, ◌^◌, ℕ, List, [], IfOk, length};
ghost use Rattle.std.specs.List.{flat_map};
ghost use Rattle.fault_list.specs.Answers.{Answers};
ghost use Rattle.fault_list.specs.Faults.{in_file};
ghost use Rattle.name_index.specs.Names.{number_of};
ghost use Rattle.name_index.specs.Places.{place_of};
ghost use Rattle.name_rules.specs.Sizes.{IsSmall};
ghost use Rattle.name_table.specs.Library.{ArePosets, AreSmall};
ghost use Rattle.name_table.specs.NameFaults.{file_faults, spelling_faults};
ghost use Rattle.name_table.specs.Stems.{known_by};
ghost use Rattle.name_table.specs.declared.source.SourceFile.{SourceFile};
ghost use Rattle.value_type.specs.declared.poset.Poset.{Poset};

use crate::library::LibraryNames;
use crate::orders::poset_of;
use crate::source::SourceFile;
use design_lexer::File;
use fault_list::{StageFault, Stop, in_file};
use name_index::NameIndex;
use name_rules::{note_twice_in_file, note_unknown_in_file};
use order_core::{List, NoMemory};
use std::alloc::Global;
use value_type::Poset;

/// The posets of the files, or the first name within a file that stands twice or leads nowhere, or poset that is no order.
pub fn posets_of(
    alloc: Global,
    library: &LibraryNames,
    files: &[SourceFile],
) -> Result<List<Poset>, StageFault>
    requires small { AreSmall files.now }
    ensures { Answers (flat_map (file_faults (known_by library.now)) files.now) (ArePosets files.now) result }
{
    let mut posets = Vec::new(alloc);
    for file in files {
        add_file(alloc, library, file, &mut posets)?;
    }
    Ok(List::of(posets))
}

/// Examines a file, and adds its poset, if it is one.
fn add_file(
    alloc: Global,
    library: &LibraryNames,
    file: &SourceFile,
    posets: &mut Vec<Poset>,
) -> Result<(), StageFault>
    requires small { IsSmall file.now.tree }
    ensures { (before : List SourceFile) → ArePosets before posets.old.items → Answers (file_faults (known_by library.now) file.now) (λ _. ArePosets (before ++ file.now ∷ []) posets.new.items) result }
{
    check_spelling(alloc, library, file)?;
    match &file.tree {
        File::Poset(tree) => {
            let poset = poset_of(alloc, file, tree)?;
            posets.push(poset)?;
            Ok(())
        }
        _ => Ok(()),
    }
}

/// The first name of the file, by its place, that stands twice or leads nowhere.
fn check_spelling(
    alloc: Global,
    library: &LibraryNames,
    file: &SourceFile,
) -> Result<(), StageFault>
    requires small { IsSmall file.now.tree }
    ensures { Answers (in_file file.now.name (spelling_faults (known_by library.now) file.now)) (λ _. Unit {0}) result }
{
    let mut first = None;
    note_twice_in_file(alloc, &file.tree, &mut first)?;
    note_unknown_in_file(alloc, library, &file.tree, &mut first)?;
    match first {
        Some(fault) => Err(in_file(alloc, &file.name, Stop::At(fault))),
        None => Ok(()),
    }
}

/// The names of the posets, each with the place of the first one that has it.
pub fn poset_names(alloc: Global, posets: &[Poset]) -> Result<NameIndex, NoMemory>
    requires few { length posets.now < 2 ^ 32 }
    ensures { IfOk result (λ names. (name : List ℕ) → number_of names name ≡ place_of (λ p. p.name) posets.now name) }
{
    let mut names = NameIndex::new(alloc);
    for (at, poset) in posets.iter().enumerate() {
        names.add(alloc, poset.name.as_str(), at as u32)?;
    }
    Ok(names)
}
