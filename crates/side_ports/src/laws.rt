//! What holds of the ports of a side.

ghost use Rattle.std.specs.Prelude.{◌≡◌, IsTrue, List, Some, [], filter};
ghost use Rattle.std.specs.List.{flat_map, list_all};
ghost use Rattle.design_lexer.specs.Sides.{same_side};
ghost use Rattle.design_lexer.specs.declared.tree.PortTree.{PortTree};
ghost use Rattle.design_lexer.specs.declared.tree.Side.{Side};
ghost use Rattle.design_model.specs.Typed.{is_port};
ghost use Rattle.order_core.specs.Pointwise.{Pointwise};
ghost use Rattle.side_ports.specs.Sides.{side_ports};
ghost use Rattle.tree_units.specs.Ports.{port_faults, port_of};
ghost use Rattle.tree_units.specs.Posets.{poset_place};
ghost use Rattle.value_type.specs.declared.poset.Types.{Types};

use tree_units::{ports_are_whole, ports_have_meanings_or_faults};

/// Each port of a side names posets that are there, and its unit has the form of its type. Where no port has a fault,
/// none is lost: the ports of a side are those that its trees write, in order.
pub fn ports_are_typed()
    ensures typed { (types : Types) (side : Side) (trees : List PortTree) → IsTrue (list_all (is_port types) (side_ports (poset_place types) side trees)) }
    ensures written { (types : Types) (side : Side) (trees : List PortTree) → flat_map (port_faults (poset_place types)) trees ≡ [] → Pointwise (λ tree port. port_of (poset_place types) tree ≡ Some port) (filter (λ tree. same_side side tree.side) trees) (side_ports (poset_place types) side trees) }
{
    ports_are_whole();
    ports_have_meanings_or_faults();
}
