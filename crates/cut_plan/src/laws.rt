//! What holds of nets that are planned.

ghost use Rattle.std.specs.Prelude.{length, IsTrue};
ghost use Rattle.order_core.specs.Pointwise.{Each};
ghost use Rattle.value_type.specs.declared.poset.Types.{Types};
ghost use Rattle.cut_plan.specs.Nets.{is_net, net_in, HasFewPorts};
ghost use Rattle.cut_plan.specs.OrderOf.{IsOrderOf};
ghost use Rattle.design_model.specs.Evaluation.{evaluation_order};
ghost use Rattle.design_model.specs.declared.design.Design.{Design};
ghost use Rattle.design_model.specs.Typed.{IsFew, IsTyped};
ghost use Rattle.design_model.specs.Wiring.{Wiring};

/// The order of evaluation has as many items as the net has parts: the number of each part, and none twice.
pub fn order_takes_each_part_once()
    ensures { (net : Wiring) → IsOrderOf (length net.provided) (evaluation_order net) }
{}

/// The parts of a typed net, and the required ports of each, are few enough for its cut signals to be worked out.
pub fn typed_nets_are_few()
    ensures parts { (t : Types) (d : Design) → IsTyped t d → IsTrue (is_net d) → IsFew (net_in d).parts }
    ensures ports { (t : Types) (d : Design) → IsTyped t d → IsTrue (is_net d) → Each HasFewPorts (net_in d).parts }
{}
