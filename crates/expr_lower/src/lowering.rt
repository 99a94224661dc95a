ghost use Rattle.std.specs.Prelude.{◌≡◌, ℕ, List, Some, option_map};
ghost use Rattle.tree_units.specs.Posets.{poset_place};
ghost use Rattle.expr_lower.specs.Meanings.{lowered};
ghost use Rattle.expr_lower.specs.Reading.{reading};
ghost use Rattle.fault_list.specs.Answers.{Answers};
ghost use Rattle.name_index.specs.Names.{number_of};
ghost use Rattle.value_type.specs.Types.{AreNamed};

use crate::expr::operand;
use crate::meaning::Lower;
use crate::operator::lowered;
use crate::ports::Readable;
use design_lexer::ExprTree;
use fault_list::{Fault, Stop};
use name_index::NameIndex;
use std::alloc::Global;
use value_type::Types;

/// The expression and its type, over the ports that it may read.
///
/// An operator's faults come after those of its operands, and where both have a meaning: `Mismatch` at an operand
/// that is no number, or at the right one where the dimensions differ; `Exponent` and `ConstantRange` at a product.
/// `NoPort` stands at a place, and `Unknown` at the name of a poset or an element that isn't there.
pub fn lower<R: Readable>(
    alloc: Global,
    tree: &ExprTree,
    types: &Types,
    posets: &NameIndex,
    ports: &R,
) -> Result<Lower, Stop<Fault>>
    requires types { AreNamed types.now }
    requires posets { (name : List ℕ) → number_of posets.now name ≡ poset_place types.now name }
    ensures { Answers (reading types.now (R.readable ports.now) tree.now).faults (λ made. option_map lowered (reading types.now (R.readable ports.now) tree.now).meaning ≡ Some made) result }
{
    let read = operand(alloc, tree, types, posets, ports)?;
    let lower = lowered(alloc, read.meaning)?;
    Ok(lower.into_inner())
}
