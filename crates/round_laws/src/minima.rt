//! What holds of the minima of rounds.

ghost use Rattle.std.specs.Prelude.{◌<◌, ℕ, IsTrue};
ghost use Rattle.value_type.specs.declared.poset.Types.{Types};
ghost use Rattle.design_model.specs.declared.design.Design.{Design};
ghost use Rattle.design_model.specs.Feasible.{IsFeasible, IsMinimum, resources_leq};
ghost use Rattle.design_model.specs.Rounds.{IsFeasibleIn, IsMinimumIn};
ghost use Rattle.design_model.specs.Rows.{Row};
ghost use Rattle.design_model.specs.Shown.{IsShown};
ghost use Rattle.design_model.specs.Typed.{IsTyped};
ghost use Rattle.round_laws.specs.AllMet.{AllMetAreSteady};
ghost use Rattle.round_laws.specs.Decided.{Decided};

/// A row either is feasible in a number of rounds or isn't: each port has finitely many values.
pub fn rounds_are_decided()
    ensures { (t : Types) (n : ℕ) (d : Design) (f r : Row) → Decided (IsFeasibleIn t n d f r) }
{}

/// Each row that is feasible in a number of rounds, and so each feasible row, is above a minimum of that number of rounds.
pub fn rows_are_above_minima()
    ensures rounds { (t : Types) (n : ℕ) (d : Design) (f r : Row) → IsFeasibleIn t n d f r
        → (low : Row) × IsMinimumIn t n d f low × IsTrue (resources_leq t d low r) }
    ensures feasible { (t : Types) (n : ℕ) (d : Design) (f r : Row) → IsTyped t d → IsFeasible t d f r
        → (low : Row) × IsMinimumIn t n d f low × IsTrue (resources_leq t d low r) }
{}

/// A minimum of rounds that is shown is feasible, and so it is one of the design's minima.
pub fn shown_minima_are_feasible()
    ensures feasible { (t : Types) (n : ℕ) (d : Design) (f r : Row) → IsTyped t d → IsShown t n d f r → IsFeasible t d f r }
    ensures minimum { (t : Types) (n : ℕ) (d : Design) (f r : Row) → IsTyped t d → IsShown t n d f r → IsMinimum t d f r }
{}

/// Where every net that is met is steady, every minimum of one round or more is shown.
pub fn minima_of_steady_designs_are_shown()
    ensures { (t : Types) (n : ℕ) (d : Design) (f r : Row) → 0 < n → IsTyped t d → AllMetAreSteady t n d f
        → IsMinimumIn t n d f r → IsShown t n d f r }
{}
