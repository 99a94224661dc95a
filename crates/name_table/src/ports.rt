ghost use Rattle.std.specs.Prelude.{◌≡◌, ◌<◌, Some, length};
ghost use Rattle.fault_list.specs.Answers.{Answers};
ghost use Rattle.fault_list.specs.Faults.{in_file};
ghost use Rattle.name_table.specs.Files.{name_at};
ghost use Rattle.tree_units.specs.Posets.{poset_place};
ghost use Rattle.tree_units.specs.Ports as ports;

use crate::names::Names;
use design_lexer::PortTree;
use fault_list::{StageFault, in_file};
use std::alloc::Global;
use value_type::Port;

/// The port that a tree of the file of this number writes, with its type and unit.
///
/// Its faults in this order: `PortGrid` at the first token of the type, where the size of a unit in it isn't whole;
/// then, from left to right, `Exponent` and `ConstantRange` at the first token of a unit, and `Unknown` at a name that
/// leads nowhere. In a file of the library there is no such name.
pub fn port_of(alloc: Global, names: &Names, file: u32, tree: &PortTree) -> Result<Port, StageFault>
    requires file { file < length names.now.files }
    ensures { Answers (in_file (name_at names.now.files file) (ports.port_faults (poset_place names.now.types) tree.now)) (λ port. Some port ≡ ports.port_of (poset_place names.now.types) tree.now) result }
{
    match tree_units::port_of(alloc, tree, &names.posets) {
        Ok(port) => Ok(port),
        Err(stop) => Err(in_file(alloc, &names.files.items()[file as usize].name, stop)),
    }
}
