ghost use Rattle.std.specs.Prelude.{◌≡◌, ℕ, List, IfOk};
ghost use Rattle.tree_units.specs.Posets.{poset_place};
ghost use Rattle.expr_lower.specs.Reading.{Reads, constant_read, element_read, port_read, upper_read};
ghost use Rattle.name_index.specs.Names.{number_of};
ghost use Rattle.value_type.specs.Types.{AreNamed};

use crate::literal;
use crate::meaning::{Lower, Meaning, Operand};
use crate::ports::Readable;
use design_lexer::{ConstantTree, NameAt, PlaceTree};
use fault_list::{Fault, FaultKind, Stop};
use name_index::NameIndex;
use order_core::{Boxed, NoMemory};
use std::alloc::Global;
use tree_units::constant_of;
use value_type::Types;

/// The constant that the tree writes.
pub fn constant(tree: &ConstantTree) -> Result<Operand, Stop<Fault>>
    ensures { Reads (constant_read tree.now) result }
{
    match constant_of(tree) {
        Ok(constant) => Ok(Operand {
            at: tree.at,
            meaning: Meaning::Constant(constant),
        }),
        Err(fault) => Err(Stop::At(fault)),
    }
}

/// The expression, in memory of its own, at its place.
pub fn expression(alloc: Global, at: u64, lower: Lower) -> Result<Operand, NoMemory>
    ensures { IfOk result (λ made. made ≡ record { at = at; meaning = Meaning.Expression lower }) }
{
    let meaning = Meaning::Expression(Boxed::of(alloc, lower)?);
    Ok(Operand { at, meaning })
}

/// The port that the place names.
pub fn port<R: Readable>(
    alloc: Global,
    ports: &R,
    place: &PlaceTree,
) -> Result<Operand, Stop<Fault>>
    ensures { Reads (port_read place.now (R.readable ports.now place.now)) result }
{
    let at = place.first.at;
    match ports.read(alloc, place)? {
        Some(lower) => Ok(expression(alloc, at, lower)?),
        None => Err(Stop::At(Fault {
            kind: FaultKind::NoPort,
            at,
        })),
    }
}

/// The element that a literal names.
pub fn element(
    alloc: Global,
    types: &Types,
    posets: &NameIndex,
    poset: &NameAt,
    element: &NameAt,
) -> Result<Operand, Stop<Fault>>
    requires types { AreNamed types.now }
    requires posets { (name : List ℕ) → number_of posets.now name ≡ poset_place types.now name }
    ensures { Reads (element_read types.now poset.now element.now) result }
{
    let lower = literal::element_of(types, posets, poset, element)?;
    Ok(expression(alloc, poset.at, lower)?)
}

/// The upper set of the elements that a literal names.
pub fn upper(
    alloc: Global,
    types: &Types,
    posets: &NameIndex,
    poset: &NameAt,
    elements: &[NameAt],
) -> Result<Operand, Stop<Fault>>
    requires types { AreNamed types.now }
    requires posets { (name : List ℕ) → number_of posets.now name ≡ poset_place types.now name }
    ensures { Reads (upper_read types.now poset.now elements.now) result }
{
    let lower = literal::upper_of(alloc, types, posets, poset, elements)?;
    Ok(expression(alloc, poset.at, lower)?)
}
