//! What holds of the rows of files. Each law is the promise of a function that does nothing.

ghost use Rattle.std.specs.Prelude.{◌≡◌, IsTrue, List, Some};
ghost use Rattle.std.specs.List.{list_all};
ghost use Rattle.catalogue_read.specs.Catalogues.{Catalogue, HasBadRow, HasRows, HasSomeRows, catalogue_of};
ghost use Rattle.design_model.specs.Typed.{row_is_typed};
ghost use Rattle.design_model.specs.declared.design.CatRow.{CatRow};
ghost use Rattle.fault_list.specs.declared.fault.FileFault.{FileFault};
ghost use Rattle.name_table.specs.declared.source.SourceFile.{SourceFile};
ghost use Rattle.name_table.specs.declared.source.Table.{Table};
ghost use Rattle.side_ports.specs.Sides.{sides_of};
ghost use Rattle.value_type.specs.Types.{AreNamed};
ghost use Rattle.value_type.specs.declared.poset.Types.{Types};

use row_values::{meant_values_fit, tables_have_one_fault, tables_mean_one_list_of_rows};

/// The rows of a catalogue are typed in the model's sense, for the ports that it declares.
pub fn rows_of_files_are_typed()
    ensures { (tables : List Table) (types : Types) (f : SourceFile) (c : Catalogue) (rows : List CatRow) → AreNamed types → catalogue_of f.tree ≡ Some c → HasRows tables types f rows → IsTrue (list_all (row_is_typed types (sides_of types c.ports).provides (sides_of types c.ports).requires_) rows) }
{
    meant_values_fit();
}

/// A file has one list of rows at most.
pub fn files_have_one_list_of_rows()
    ensures { (tables : List Table) (types : Types) (f : SourceFile) (rows others : List CatRow) → HasRows tables types f rows → HasRows tables types f others → rows ≡ others }
{
    tables_mean_one_list_of_rows();
}

/// The rows of a file have one first fault at most, and none where the file has rows.
pub fn files_have_one_bad_row()
    ensures one { (tables : List Table) (types : Types) (f : SourceFile) (a b : FileFault) → HasBadRow tables types f a → HasBadRow tables types f b → a ≡ b }
    ensures never_both { (tables : List Table) (types : Types) (f : SourceFile) (fault : FileFault) → HasSomeRows tables types f → HasBadRow tables types f fault → ⊥ }
{
    tables_have_one_fault();
}
