//! What holds of libraries and their designs. Each law is the promise of a function that does nothing.

ghost use Rattle.std.specs.Prelude.{◌≡◌, ℕ, List, None, [], true};
ghost use Rattle.catalogue_read.specs.Catalogues.{HasSomeRows};
ghost use Rattle.design_model.specs.Typed.{IsTyped};
ghost use Rattle.design_model.specs.declared.design.Design.{Design};
ghost use Rattle.design_world.specs.Files.{File};
ghost use Rattle.library_files.specs.Branches.{HasBranch};
ghost use Rattle.library_files.specs.declared.fault.LibraryFault.{LibraryFault as Reason};
ghost use Rattle.library_files.specs.declared.parse.Parsed.{Parsed};
ghost use Rattle.library_load.specs.Designs.{HasFewRows, IsDesign, design_file};
ghost use Rattle.library_load.specs.Loaded.{IsAccepted, IsRefused};
ghost use Rattle.module_link.specs.Links.{IsUnresolved};
ghost use Rattle.name_table.specs.declared.source.SourceFile.{SourceFile};
ghost use Rattle.name_table.specs.declared.source.Table.{Table};
ghost use Rattle.order_core.specs.Members.{IsMember};
ghost use Rattle.order_core.specs.Pointwise.{Each};
ghost use Rattle.reference_check.specs.LibraryFronts.{library_faults};
ghost use Rattle.reference_meaning.specs.Sources.{is_closed};
ghost use Rattle.unit_check.specs.TypeFaults.{type_faults};
ghost use Rattle.value_type.specs.declared.poset.Types.{Types};

use catalogue_read::{
    files_have_one_bad_row, files_have_one_list_of_rows, rows_of_files_are_typed,
};
use library_files::{
    files_are_taken_in_one_way, texts_are_parsed_in_one_way, texts_have_one_fault,
};
use name_table::{Names, files_have_one_list_of_posets, references_fall};
use reference_meaning::{falling_references_denote, meaning_is_unique};
use reference_rules::references_denote_typed_designs;
use side_ports::ports_are_typed;
use unit_check::{choices_have_the_ports_of_their_first_branch, rules_are_typed};

/// A name is that of one design at most, and only of one that a file writes.
pub fn names_have_one_design()
    ensures there { (files : List SourceFile) (tables : List Table) (types : Types) (name : List ℕ) (X : Design) → IsDesign files tables types name X → design_file files name ≡ None → ⊥ }
    ensures one { (files : List SourceFile) (tables : List Table) (types : Types) (name : List ℕ) (X Y : Design) → IsDesign files tables types name X → IsDesign files tables types name Y → X ≡ Y }
{
    files_have_one_list_of_rows();
    meaning_is_unique();
}

/// The designs of a library are typed in the model's sense, where its types and its references have no fault and each
/// choice has a branch.
pub fn designs_are_typed(names: &Names)
    ensures { type_faults names.now.files names.now.types ≡ [] → Each (HasFewRows names.now.tables names.now.types) names.now.files → library_faults names.now.files names.now.types ≡ [] → Each HasBranch names.now.files → (name : List ℕ) (X : Design) → IsDesign names.now.files names.now.tables names.now.types name X → IsTyped names.now.types X }
{
    choices_have_the_ports_of_their_first_branch(names);
    rules_are_typed();
    ports_are_typed();
    rows_of_files_are_typed();
    references_denote_typed_designs();
}

/// Each design of a library has a meaning, where its rows have one, and its types and its references have no fault.
pub fn designs_have_meanings(names: &Names)
    ensures { type_faults names.now.files names.now.types ≡ [] → Each (HasSomeRows names.now.tables names.now.types) names.now.files → library_faults names.now.files names.now.types ≡ [] → (f : SourceFile) → IsMember f names.now.files → is_closed f.tree ≡ true → (X : Design) × IsDesign names.now.files names.now.tables names.now.types f.stem X }
{
    choices_have_the_ports_of_their_first_branch(names);
    references_fall(names);
    falling_references_denote();
}

/// Each reference of a library has its names resolved, where no reference has a fault.
pub fn references_are_resolved(names: &Names)
    ensures { Each (HasSomeRows names.now.tables names.now.types) names.now.files → library_faults names.now.files names.now.types ≡ [] → (f : SourceFile) → IsMember f names.now.files → IsUnresolved names.now.files f → ⊥ }
{
    choices_have_the_ports_of_their_first_branch(names);
    references_fall(names);
}

/// The files of a folder are accepted or refused in one way at most.
pub fn libraries_are_judged_in_one_way()
    ensures accepted { (files : List File) (a b : Parsed) (s t : Types) → IsAccepted files a s → IsAccepted files b t → (a ≡ b) × (s ≡ t) }
    ensures refused { (files : List File) (a b : Reason) → IsRefused files a → IsRefused files b → a ≡ b }
    ensures never_both { (files : List File) (made : Parsed) (types : Types) (reason : Reason) → IsAccepted files made types → IsRefused files reason → ⊥ }
{
    files_are_taken_in_one_way();
    texts_are_parsed_in_one_way();
    texts_have_one_fault();
    files_have_one_list_of_posets();
    files_have_one_bad_row();
    names_have_one_design();
}
