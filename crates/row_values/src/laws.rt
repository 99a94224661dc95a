//! What holds of the values of rows. Each law is the promise of a function that does nothing.

ghost use Rattle.std.specs.Prelude.{◌≡◌, ℕ, IsTrue, List, Some};
ghost use Rattle.std.specs.List.{list_all};
ghost use Rattle.design_lexer.specs.declared.tree.RowTree.{RowTree};
ghost use Rattle.design_lexer.specs.declared.tree.ValueTree.{ValueTree};
ghost use Rattle.design_model.specs.Typed.{row_is_typed};
ghost use Rattle.design_model.specs.declared.design.CatRow.{CatRow};
ghost use Rattle.fault_list.specs.declared.fault.Fault.{Fault};
ghost use Rattle.row_values.specs.Rows.{rows_meant};
ghost use Rattle.row_values.specs.Tables.{IsTable, IsTableFault};
ghost use Rattle.row_values.specs.Values.{value_meant};
ghost use Rattle.row_values.specs.declared.value.Rounding.{Rounding};
ghost use Rattle.value_type.specs.Fits.{fits};
ghost use Rattle.value_type.specs.Types.{AreNamed};
ghost use Rattle.value_type.specs.declared.kind.Kind.{Kind};
ghost use Rattle.value_type.specs.declared.port.Port.{Port};
ghost use Rattle.value_type.specs.declared.poset.Types.{Types};
ghost use Rattle.value_type.specs.declared.value.Value.{Value};

/// What a tree means for a type is a value of that type, and the rows that trees mean or that a table means are typed in
/// the model's sense.
pub fn meant_values_fit()
    ensures values { (types : Types) (rounding : Rounding) (kind : Kind) (tree : ValueTree) (v : Value) → AreNamed types → value_meant types rounding kind tree ≡ Some v → IsTrue (fits types kind v) }
    ensures rows { (types : Types) (provides requires_ : List Port) (trees : List RowTree) (rows : List CatRow) → AreNamed types → rows_meant types provides requires_ trees ≡ Some rows → IsTrue (list_all (row_is_typed types provides requires_) rows) }
    ensures tables { (types : Types) (provides requires_ : List Port) (bytes : List ℕ) (rows : List CatRow) → AreNamed types → IsTable types provides requires_ bytes rows → IsTrue (list_all (row_is_typed types provides requires_) rows) }
{}

/// A table means one list of rows at most.
pub fn tables_mean_one_list_of_rows()
    ensures { (types : Types) (provides requires_ : List Port) (bytes : List ℕ) (rows others : List CatRow) → IsTable types provides requires_ bytes rows → IsTable types provides requires_ bytes others → rows ≡ others }
{}

/// A table has one first fault at most, and none where it means rows.
pub fn tables_have_one_fault()
    ensures one { (types : Types) (provides requires_ : List Port) (bytes : List ℕ) (a b : Fault) → IsTableFault types provides requires_ bytes a → IsTableFault types provides requires_ bytes b → a ≡ b }
    ensures never_both { (types : Types) (provides requires_ : List Port) (bytes : List ℕ) (rows : List CatRow) (fault : Fault) → IsTable types provides requires_ bytes rows → IsTableFault types provides requires_ bytes fault → ⊥ }
{}
