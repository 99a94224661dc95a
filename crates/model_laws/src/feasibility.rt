//! What holds of feasibility.

ghost use Rattle.value_type.specs.declared.poset.Types.{Types};
ghost use Rattle.design_model.specs.declared.design.Design.{Design};
ghost use Rattle.design_model.specs.declared.witness.Witness.{Witness};
ghost use Rattle.design_model.specs.Feasible.{IsFeasible};
ghost use Rattle.design_model.specs.Holds.{Fit, Holds};
ghost use Rattle.design_model.specs.Parts.{provided_ports, required_ports};
ghost use Rattle.design_model.specs.Rows.{Row};
ghost use Rattle.design_model.specs.Typed.{IsTyped};
ghost use Rattle.model_laws.specs.HoldsMonotone.{Eases};

/// Rows that don't fit the ports never hold.
pub fn what_does_not_fit_never_holds()
    ensures { (t : Types) (d : Design) (f r : Row) (w : Witness) → Holds t d f r w → Fit t (provided_ports d) (required_ports d) f r }
{}

/// With a smaller functionality and greater resources a design still holds, by the same witness. So feasible rows are closed upward.
pub fn holding_is_monotone()
    ensures holds { (t : Types) (d : Design) (f g r s : Row) (w : Witness) → IsTyped t d → Eases t (provided_ports d) (required_ports d) f g r s
        → Holds t d f r w → Holds t d g s w }
    ensures feasible { (t : Types) (d : Design) (f g r s : Row) → IsTyped t d → Eases t (provided_ports d) (required_ports d) f g r s
        → IsFeasible t d f r → IsFeasible t d g s }
{}
