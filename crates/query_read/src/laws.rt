//! What holds of queries and tuples. Each law is the promise of a function that does nothing.

ghost use Rattle.std.specs.Prelude.{◌≡◌, ℕ, IsTrue, List};
ghost use Rattle.design_model.specs.Parts.{provided_ports, required_ports};
ghost use Rattle.design_model.specs.declared.design.Design.{Design};
ghost use Rattle.query_read.specs.Queries.{IsQuery, IsQueryFault, IsRow, IsRowFault, IsTuple, IsTupleFault};
ghost use Rattle.query_read.specs.declared.query.QueryFault.{QueryFault};
ghost use Rattle.query_read.specs.declared.row.RowFault.{RowFault};
ghost use Rattle.row_values.specs.declared.value.Rounding.{Rounding};
ghost use Rattle.value_type.specs.Fits.{row_fits};
ghost use Rattle.value_type.specs.PortKinds.{port_kinds};
ghost use Rattle.value_type.specs.Types.{AreNamed};
ghost use Rattle.value_type.specs.declared.port.Port.{Port};
ghost use Rattle.value_type.specs.declared.poset.Types.{Types};
ghost use Rattle.value_type.specs.declared.value.Value.{Value};

/// The row that a text writes has one value of its type for each port.
pub fn queries_fit()
    ensures { (types : Types) (rounding : Rounding) (ports : List Port) (text : List ℕ) (row : List Value) → IsRow types rounding ports text row → AreNamed types → IsTrue (row_fits types (port_kinds ports) row) }
{}

/// A text writes one row at most.
pub fn texts_write_one_row()
    ensures { (types : Types) (rounding : Rounding) (ports : List Port) (text : List ℕ) (row other : List Value) → IsRow types rounding ports text row → IsRow types rounding ports text other → row ≡ other }
{}

/// A text that is refused writes no row, no query and no tuple.
pub fn refused_texts_write_no_row()
    ensures rows { (types : Types) (rounding : Rounding) (ports : List Port) (text : List ℕ) (fault : RowFault) (row : List Value) → IsRowFault types rounding ports text fault → IsRow types rounding ports text row → ⊥ }
    ensures queries { (types : Types) (design : Design) (text : List ℕ) (fault : QueryFault) (f : List Value) → IsQueryFault types design text fault → IsQuery types design text f → ⊥ }
    ensures tuples { (types : Types) (design : Design) (text : List ℕ) (fault : QueryFault) (row : List Value) → IsTupleFault types design text fault → IsTuple types design text row → ⊥ }
{}

/// A text has one fault at most, as a row, as a query and as a tuple.
pub fn refused_texts_have_one_fault()
    ensures rows { (types : Types) (rounding : Rounding) (ports : List Port) (text : List ℕ) (a b : RowFault) → IsRowFault types rounding ports text a → IsRowFault types rounding ports text b → a ≡ b }
    ensures queries { (types : Types) (design : Design) (text : List ℕ) (a b : QueryFault) → IsQueryFault types design text a → IsQueryFault types design text b → a ≡ b }
    ensures tuples { (types : Types) (design : Design) (text : List ℕ) (a b : QueryFault) → IsTupleFault types design text a → IsTupleFault types design text b → a ≡ b }
{}
