//! How many rounds are enough.

ghost use Rattle.std.specs.Prelude.{◌≡◌, ◌↔◌, ◌+◌, ◌<◌, ◌≤◌, ℕ, IsTrue, Some, map};
ghost use Rattle.order_core.specs.Chains.{IsSteady};
ghost use Rattle.value_type.specs.declared.poset.Types.{Types};
ghost use Rattle.value_type.specs.Fits.{row_fits};
ghost use Rattle.value_type.specs.PortKinds.{port_kinds};
ghost use Rattle.design_model.specs.declared.design.Design.{Design};
ghost use Rattle.design_model.specs.Feasible.{IsMinimum};
ghost use Rattle.design_model.specs.Heights.{net_height, enough_rounds};
ghost use Rattle.design_model.specs.HeightsLaws.{of_part};
ghost use Rattle.design_model.specs.Parts.{provided_ports};
ghost use Rattle.design_model.specs.Rounds.{IsMinimumIn};
ghost use Rattle.design_model.specs.Rows.{Row};
ghost use Rattle.design_model.specs.Shown.{IsShown};
ghost use Rattle.design_model.specs.Steady.{NetOf, design_of, wiring};
ghost use Rattle.design_model.specs.SteadyLaws.{StepsIn, IsSteadyIn};
ghost use Rattle.design_model.specs.Step.{is_state, state_leq};
ghost use Rattle.design_model.specs.Typed.{IsTyped};
ghost use Rattle.round_laws.specs.AllMet.{AllMetAreSteady};

/// A net of height h is steady in every number of rounds from h + 2 on, at every functionality and whatever its parts are. After more than h steps its chains gain no further ends, in whatever number of rounds its parts are feasible.
pub fn nets_of_a_height_are_steady()
    ensures rounds { (t : Types) (more h : ℕ) (net : NetOf) (f : Row) → IsTyped t (design_of net) → IsTrue (row_fits t (port_kinds net.provides) f)
        → net_height t (wiring net) (map (of_part t) net.parts) ≡ Some h → IsSteadyIn t (more + (h + 2)) net f }
    ensures chains { (t : Types) (n h : ℕ) (net : NetOf) (f : Row) → IsTyped t (design_of net) → IsTrue (row_fits t (port_kinds net.provides) f)
        → net_height t (wiring net) (map (of_part t) net.parts) ≡ Some h
        → (k : ℕ) → h < k → IsSteady (is_state t (wiring net)) (state_leq t (wiring net)) (StepsIn t n net f) k }
{}

/// With at least the enough rounds every net that is met is steady, every minimum of rounds is shown, and the minima of rounds are the minima.
pub fn enough_rounds_are_enough()
    ensures steady { (t : Types) (n enough : ℕ) (d : Design) (f : Row) → IsTyped t d → enough_rounds t d ≡ Some enough → enough ≤ n
        → IsTrue (row_fits t (port_kinds (provided_ports d)) f) → AllMetAreSteady t n d f }
    ensures shown { (t : Types) (n enough : ℕ) (d : Design) (f r : Row) → IsTyped t d → enough_rounds t d ≡ Some enough → enough ≤ n
        → IsMinimumIn t n d f r → IsShown t n d f r }
    ensures minima { (t : Types) (n enough : ℕ) (d : Design) (f r : Row) → IsTyped t d → enough_rounds t d ≡ Some enough → enough ≤ n
        → IsMinimumIn t n d f r ↔ IsMinimum t d f r }
{}
