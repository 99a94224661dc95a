//! What holds of steps, chains and rounds.

ghost use Rattle.std.specs.Prelude.{◌≡◌, ◌+◌, ℕ, IsTrue, List, [], map};
ghost use Rattle.order_core.specs.Chains.{IsMonotone, IsSteady};
ghost use Rattle.order_core.specs.Order.{IsOrder};
ghost use Rattle.value_type.specs.declared.poset.Types.{Types};
ghost use Rattle.value_type.specs.Fits.{row_fits};
ghost use Rattle.value_type.specs.Leq.{row_leq};
ghost use Rattle.value_type.specs.PortKinds.{port_kinds};
ghost use Rattle.design_model.specs.declared.design.Design.{Design};
ghost use Rattle.design_model.specs.Cuts.{cut_signals};
ghost use Rattle.design_model.specs.Evaluation.{part_reads};
ghost use Rattle.design_model.specs.Feasible.{IsFeasible};
ghost use Rattle.design_model.specs.Parts.{provided_ports, required_ports};
ghost use Rattle.design_model.specs.Rounds.{IsFeasibleIn};
ghost use Rattle.design_model.specs.Rows.{Row};
ghost use Rattle.design_model.specs.Steady.{NetOf, design_of, wiring};
ghost use Rattle.design_model.specs.SteadyLaws.{StepsIn, StepsInBy, EndsIn, EndsLeastIn};
ghost use Rattle.design_model.specs.Step.{is_state, state_kinds, state_leq, own_values};
ghost use Rattle.design_model.specs.Typed.{IsTyped};
ghost use Rattle.design_model.specs.Wiring.{Carried, Wiring, wiring_of};
ghost use Rattle.design_model.specs.Heights.{surveyed};
ghost use Rattle.design_model.specs.HeightsLaws.{of_part};
ghost use Rattle.design_model.specs.declared.design.Part.{Part};
ghost use Rattle.design_model.specs.declared.expr.Constraint.{Constraint};
ghost use Rattle.value_type.specs.declared.port.Port.{Port};
ghost use Rattle.model_laws.specs.Acyclic.{ReadsItself};
ghost use Rattle.model_laws.specs.HoldsMonotone.{Eases};
ghost use Rattle.model_laws.specs.Settled.{AreFeasible};

/// With a smaller functionality and greater resources a design is still feasible in as many rounds.
pub fn rounds_are_monotone()
    ensures { (t : Types) (n : ℕ) (d : Design) (f g r s : Row) → IsTyped t d → Eases t (provided_ports d) (required_ports d) f g r s
        → IsFeasibleIn t n d f r → IsFeasibleIn t n d g s }
{}

/// Steps lead to states. What a greater state steps to, a lesser one steps to as well. A state steps to all states above one that it steps to.
pub fn steps_are_monotone()
    ensures { (t : Types) (n : ℕ) (net : NetOf) (f : Row) → IsTyped t (design_of net) → IsTrue (row_fits t (port_kinds net.provides) f)
        → IsMonotone (is_state t (wiring net)) (state_leq t (wiring net)) (StepsIn t n net f) }
{}

/// The states of a net are rows of the types of its cut signals and own required ports, and are compared as these. So they are in order.
pub fn states_are_rows()
    ensures fit { (t : Types) (net : Wiring) (s : Row) → is_state t net s ≡ row_fits t (state_kinds net) s }
    ensures compare { (t : Types) (net : Wiring) (s u : Row) → state_leq t net s u ≡ row_leq t (state_kinds net) s u }
    ensures order { (t : Types) (net : Wiring) → IsOrder (is_state t net) (state_leq t net) }
{}

/// What is above the end of a chain ends one too, and a longer chain has no new end.
pub fn chains_fall_and_rise()
    ensures rise { (t : Types) (n : ℕ) (net : NetOf) (f : Row) → IsTyped t (design_of net) → IsTrue (row_fits t (port_kinds net.provides) f)
        → (k : ℕ) (s u : Row) → EndsIn t n net f k s → IsTrue (is_state t (wiring net) u) → IsTrue (state_leq t (wiring net) s u) → EndsIn t n net f k u }
    ensures fall { (t : Types) (n : ℕ) (net : NetOf) (f : Row) (k : ℕ) (s : Row) → EndsIn t n net f (k + 1) s → EndsIn t n net f k s }
{}

/// A least end that also ends a longer chain steps to itself, and is a least end of all longer chains.
pub fn least_ends_settle()
    ensures steps { (t : Types) (n : ℕ) (net : NetOf) (f : Row) (k : ℕ) (s : Row) → EndsLeastIn t n net f k s → EndsIn t n net f (k + 1) s → StepsIn t n net f s s }
    ensures stays { (t : Types) (n : ℕ) (net : NetOf) (f : Row) (k more : ℕ) (s : Row) → EndsLeastIn t n net f k s → EndsIn t n net f (k + 1) s → EndsLeastIn t n net f (more + k) s }
{}

/// What is feasible is feasible in every number of rounds.
pub fn feasible_rows_are_feasible_in_rounds()
    ensures { (t : Types) (n : ℕ) (d : Design) (f r : Row) → IsTyped t d → IsFeasible t d f r → IsFeasibleIn t n d f r }
{}

/// Where a state steps to itself by parts that are feasible at what they carry, its own required values are feasible for the net.
pub fn settled_states_are_feasible()
    ensures { (t : Types) (n : ℕ) (net : NetOf) (f state : Row) (carried : List Carried) → IsTyped t (design_of net) → IsTrue (row_fits t (port_kinds net.provides) f)
        → StepsInBy t n net f state state carried → AreFeasible t net.parts carried → IsFeasible t (design_of net) f (own_values (wiring net) state) }
{}

/// A net in which no part reads itself, directly or through further parts, has no cut signal.
pub fn nets_without_loops_have_no_cut_signals()
    ensures { (net : NetOf) → ((p : ℕ) → ReadsItself (part_reads net.constraints) p → ⊥) → cut_signals (wiring net) ≡ [] }
{}

/// In a net without cut signals, what ends a chain of one step ends chains of any number of steps.
pub fn nets_without_cut_signals_are_steady()
    ensures { (t : Types) (n : ℕ) (net : NetOf) (f : Row) → cut_signals (wiring net) ≡ []
        → (k : ℕ) → IsSteady (is_state t (wiring net)) (state_leq t (wiring net)) (StepsIn t n net f) (k + 1) }
{}

/// The wiring that the height of a net goes by is that of the net.
pub fn heights_go_by_the_wiring()
    ensures { (t : Types) (provides requires_ : List Port) (parts : List Part) (constraints : List Constraint)
        → surveyed provides requires_ (map (of_part t) parts) constraints ≡ wiring_of (λ p. p) provides requires_ parts constraints }
{}
