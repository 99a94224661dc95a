//! What holds of typed terms.

ghost use Rattle.std.specs.Prelude.{ℕ, IsTrue, List};
ghost use Rattle.value_type.specs.declared.kind.Kind.{Kind};
ghost use Rattle.value_type.specs.declared.poset.Types.{Types};
ghost use Rattle.value_type.specs.Fits.{row_fits};
ghost use Rattle.value_type.specs.Leq.{row_leq};
ghost use Rattle.design_model.specs.Rows.{Row};
ghost use Rattle.design_term.specs.declared.term.Term.{Term};
ghost use Rattle.design_term.specs.Outcomes.{Relates};
ghost use Rattle.design_term.specs.TermTypes.{TermIsTyped};

/// At an input that fits, each output of a typed term fits, and all rows that fit and are above an output are outputs too. A lesser input has all outputs of a greater one.
pub fn terms_are_monotone()
    ensures fit { (t : Types) (n : ℕ) (term : Term) (ins outs : List Kind) (x y : Row) → TermIsTyped t term ins outs → IsTrue (row_fits t ins x)
        → Relates t n term x y → IsTrue (row_fits t outs y) }
    ensures upward { (t : Types) (n : ℕ) (term : Term) (ins outs : List Kind) (x y z : Row) → TermIsTyped t term ins outs → IsTrue (row_fits t ins x)
        → IsTrue (row_fits t outs z) → IsTrue (row_leq t outs y z) → Relates t n term x y → Relates t n term x z }
    ensures falling { (t : Types) (n : ℕ) (term : Term) (ins outs : List Kind) (x y z : Row) → TermIsTyped t term ins outs → IsTrue (row_fits t ins x)
        → IsTrue (row_fits t ins y) → IsTrue (row_leq t ins x y) → Relates t n term y z → Relates t n term x z }
{}
