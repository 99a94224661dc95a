//! What holds of the steps of a net and of the ends of its chains.

ghost use Rattle.std.specs.Prelude.{ℕ, suc, IsTrue, List, ◌⊎◌};
ghost use Rattle.order_core.specs.Chains.{IsSteady};
ghost use Rattle.value_type.specs.declared.poset.Types.{Types};
ghost use Rattle.value_type.specs.Fits.{row_fits};
ghost use Rattle.value_type.specs.PortKinds.{port_kinds};
ghost use Rattle.design_model.specs.Rows.{Row};
ghost use Rattle.design_model.specs.Steady.{NetOf, design_of, wiring};
ghost use Rattle.design_model.specs.SteadyLaws.{StepsIn, EndsIn, EndsLeastIn, IsTight};
ghost use Rattle.design_model.specs.Step.{is_state, state_leq};
ghost use Rattle.design_model.specs.Typed.{IsTyped};
ghost use Rattle.design_model.specs.Wiring.{Carried};

/// Where a step leads from one state to another, a tight step does.
pub fn steps_can_be_tight()
    ensures { (t : Types) (n : ℕ) (net : NetOf) (f x y : Row) → IsTyped t (design_of net) → IsTrue (row_fits t (port_kinds net.provides) f)
        → StepsIn t n net f x y → (carried : List Carried) × IsTight t n net f x y carried }
{}

/// After k steps a net is steady, or one of the least ends of k steps ends no chain of one step more.
pub fn nets_are_steady_or_climb()
    ensures { (t : Types) (n k : ℕ) (net : NetOf) (f : Row) → IsTyped t (design_of net) → IsTrue (row_fits t (port_kinds net.provides) f)
        → IsSteady (is_state t (wiring net)) (state_leq t (wiring net)) (StepsIn t n net f) k
        ⊎ ((s : Row) × EndsLeastIn t n net f k s × (EndsIn t n net f (suc k) s → ⊥)) }
{}
