ghost use Rattle.std.specs.Prelude.{◌↔◌, ◌≤◌, ℕ, IsTrue};
ghost use Rattle.compiled_term.specs.CompiledTerm.{compiled};
ghost use Rattle.design_model.specs.declared.design.Design.{Design};
ghost use Rattle.design_model.specs.Parts.{provided_ports, required_ports};
ghost use Rattle.design_model.specs.Rounds.{IsFeasibleIn};
ghost use Rattle.design_model.specs.Rows.{Row};
ghost use Rattle.design_model.specs.Typed.{IsTyped};
ghost use Rattle.design_term.specs.Outcomes.{Relates};
ghost use Rattle.design_term.specs.TermTypes.{TermIsTyped};
ghost use Rattle.value_type.specs.declared.poset.Types.{Types};
ghost use Rattle.value_type.specs.Fits.{row_fits};
ghost use Rattle.value_type.specs.PortKinds.{port_kinds};

/// The term of a typed design is typed, from the design's provided types to its required ones. For each number of
/// rounds from one on it relates what fits the provided types to exactly what is feasible in so many rounds.
pub fn compiled_terms_are_the_designs()
    ensures typed { (t : Types) (d : Design) → IsTyped t d → TermIsTyped t (compiled d) (port_kinds (provided_ports d)) (port_kinds (required_ports d)) }
    ensures relation { (t : Types) (n : ℕ) (d : Design) (f r : Row) → 1 ≤ n → IsTyped t d → IsTrue (row_fits t (port_kinds (provided_ports d)) f)
        → Relates t n (compiled d) f r ↔ IsFeasibleIn t n d f r }
{}
