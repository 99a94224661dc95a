ghost use Rattle.std.specs.Prelude.{◌≡◌, ℕ, List, Some, map};
ghost use Rattle.tree_units.specs.Posets.{poset_place};
ghost use Rattle.expr_lower.specs.Reading.{Reads, lowered_parts, part_faults, place_of, reading};
ghost use Rattle.fault_list.specs.Answers.{Answers};
ghost use Rattle.name_index.specs.Names.{number_of};
ghost use Rattle.value_type.specs.Types.{AreNamed};

use crate::leaf;
use crate::meaning::{Lower, Operand};
use crate::operator::{Joining, join, lowered, multiply};
use crate::parts::tuple;
use crate::ports::Readable;
use design_lexer::ExprTree;
use fault_list::{Fault, Stop};
use name_index::NameIndex;
use order_core::{Boxed, List};
use std::alloc::Global;
use value_type::Types;

/// The place of the expression's first token.
pub fn place_of(tree: &ExprTree) -> u64
    ensures { result ≡ place_of tree.now }
{
    match tree {
        ExprTree::Constant(constant) => constant.at,
        ExprTree::Place(place) => place.first.at,
        ExprTree::Element { poset, .. } => poset.at,
        ExprTree::Upper { poset, .. } => poset.at,
        ExprTree::Sum { at, .. } => *at,
        ExprTree::Product { at, .. } => *at,
        ExprTree::Greatest { at, .. } => *at,
        ExprTree::Lesser { at, .. } => *at,
        ExprTree::Tuple { at, .. } => *at,
    }
}

/// The expression's place, and what it means.
#[cycle(operand)]
pub fn operand<R: Readable>(
    alloc: Global,
    tree: &ExprTree,
    types: &Types,
    posets: &NameIndex,
    ports: &R,
) -> Result<Operand, Stop<Fault>>
    requires types { AreNamed types.now }
    requires posets { (name : List ℕ) → number_of posets.now name ≡ poset_place types.now name }
    ensures { Reads (reading types.now (R.readable ports.now) tree.now) result }
{
    match tree {
        ExprTree::Constant(constant) => leaf::constant(constant),
        ExprTree::Place(place) => leaf::port(alloc, ports, place),
        ExprTree::Element { poset, element } => {
            leaf::element(alloc, types, posets, poset, element)
        }
        ExprTree::Upper { poset, elements } => {
            leaf::upper(alloc, types, posets, poset, elements.items())
        }
        ExprTree::Sum { left, right, at } => {
            let a = operand(alloc, left.get(), types, posets, ports)?;
            let b = operand(alloc, right.get(), types, posets, ports)?;
            join(alloc, *at, Joining::Sum, a, b)
        }
        ExprTree::Product { left, right, at } => {
            let a = operand(alloc, left.get(), types, posets, ports)?;
            let b = operand(alloc, right.get(), types, posets, ports)?;
            multiply(alloc, *at, a, b)
        }
        ExprTree::Greatest { left, right, at } => {
            let a = operand(alloc, left.get(), types, posets, ports)?;
            let b = operand(alloc, right.get(), types, posets, ports)?;
            join(alloc, *at, Joining::Greatest, a, b)
        }
        ExprTree::Lesser { left, right, at } => {
            let a = operand(alloc, left.get(), types, posets, ports)?;
            let b = operand(alloc, right.get(), types, posets, ports)?;
            join(alloc, *at, Joining::Lesser, a, b)
        }
        ExprTree::Tuple { parts, at } => {
            let parts = lowered_parts(alloc, parts.items(), types, posets, ports)?;
            Ok(tuple(alloc, *at, parts)?)
        }
    }
}

/// The parts of a tuple, lowered.
#[cycle(operand)]
fn lowered_parts<R: Readable>(
    alloc: Global,
    parts: &[ExprTree],
    types: &Types,
    posets: &NameIndex,
    ports: &R,
) -> Result<List<Boxed<Lower>>, Stop<Fault>>
    requires types { AreNamed types.now }
    requires posets { (name : List ℕ) → number_of posets.now name ≡ poset_place types.now name }
    ensures { Answers (part_faults (map (reading types.now (R.readable ports.now)) parts.now)) (λ made. Some made ≡ lowered_parts (map (reading types.now (R.readable ports.now)) parts.now)) result }
{
    let mut lowers = Vec::new(alloc);
    for part in parts {
        let read = operand(alloc, part, types, posets, ports)?;
        let lower = lowered(alloc, read.meaning)?;
        lowers.push(lower)?;
    }
    Ok(List::of(lowers))
}
