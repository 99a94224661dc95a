ghost use Rattle.std.specs.Prelude.{◌≡◌, ◌<◌, ◌^◌, ◌++◌, None, IfOk, OnOk, length, map};
ghost use Rattle.fault_list.specs.Answers.{Answers};
ghost use Rattle.fault_list.specs.Faults.{in_file};
ghost use Rattle.name_index.specs.Names.{number_of};
ghost use Rattle.name_table.specs.Orders.{IsPosetOf, chain_after, chain_pairs, declared_pairs, order_faults};
ghost use Rattle.name_table.specs.Orders as spec;
ghost use Rattle.fault_list.specs.declared.fault.Stop.TheVariants.{At};
ghost use Rattle.order_core.specs.Walk.{IsClosure};

use crate::source::SourceFile;
use design_lexer::{NameAt, PosetTree};
use fault_list::{Fault, FaultKind, StageFault, Stop, in_file};
use name_index::NameIndex;
use name_rules::places_of;
use order_core::{FiniteOrder, List, NoMemory, OrderFault, Text};
use std::alloc::Global;
use value_type::Poset;

/// The greatest number of elements that a poset may have.
const MAX_ELEMENTS: usize = 64;

/// The poset that the tree of a file writes.
///
/// `EmptyPoset`, `LargePoset` or `NotAnOrder` at the start of the file, in this order.
pub fn poset_of(alloc: Global, file: &SourceFile, tree: &PosetTree) -> Result<Poset, StageFault>
    ensures { Answers (in_file file.now.name (order_faults tree.now)) (IsPosetOf file.now.stem tree.now) result }
{
    match order_of(alloc, tree) {
        Ok(order) => {
            let name = file.stem.copy(alloc)?;
            let elements = names_of(alloc, tree.elements.items())?;
            Ok(Poset {
                name,
                elements,
                order,
            })
        }
        Err(stop) => Err(in_file(alloc, &file.name, stop)),
    }
}

/// The order of the poset.
fn order_of(alloc: Global, tree: &PosetTree) -> Result<FiniteOrder, Stop<Fault>>
    ensures { Answers (order_faults tree.now) (λ order. IsClosure (length tree.now.elements) (declared_pairs tree.now) order.table) result }
{
    let size = tree.elements.items().len();
    if size == 0 {
        return Err(at_start(FaultKind::EmptyPoset));
    }
    if size > MAX_ELEMENTS {
        return Err(at_start(FaultKind::LargePoset));
    }
    let pairs = declared_pairs(alloc, tree)?;
    match FiniteOrder::close(alloc, size as u32, pairs.as_slice()) {
        Ok(order) => Ok(order),
        Err(OrderFault::Cycle(_, _)) => Err(at_start(FaultKind::NotAnOrder)),
        Err(OrderFault::Memory) => Err(Stop::Memory),
    }
}

/// The pairs that the poset declares, by the places of its elements.
fn declared_pairs(alloc: Global, tree: &PosetTree) -> Result<Vec<(u32, u32)>, NoMemory>
    requires few { length tree.now.elements < 2 ^ 32 }
    ensures { IfOk result (λ pairs. pairs.items ≡ declared_pairs tree.now) }
{
    let places = places_of(alloc, tree.elements.items())?;
    chain_pairs(alloc, &places, tree.chains.items())
}

/// A fault of the whole file.
fn at_start(kind: FaultKind) -> Stop<Fault>
    ensures { result ≡ At (spec.at_start kind) }
{
    Stop::At(Fault { kind, at: 0 })
}

/// The names, in order.
fn names_of(alloc: Global, names: &[NameAt]) -> Result<List<Text>, NoMemory>
    ensures { IfOk result (λ made. made ≡ map (λ n. n.name) names.now) }
{
    let mut made = Vec::new(alloc);
    for name in names {
        let name = name.name.copy(alloc)?;
        made.push(name)?;
    }
    Ok(List::of(made))
}

/// The pairs of neighbours in the chains, by the places of their names.
fn chain_pairs(
    alloc: Global,
    places: &NameIndex,
    chains: &[List<NameAt>],
) -> Result<Vec<(u32, u32)>, NoMemory>
    ensures { IfOk result (λ pairs. pairs.items ≡ chain_pairs (number_of places.now) chains.now) }
{
    let mut pairs = Vec::new(alloc);
    for chain in chains {
        add_chain(places, chain.items(), &mut pairs)?;
    }
    Ok(pairs)
}

/// Adds the pairs of neighbours in the chain.
fn add_chain(
    places: &NameIndex,
    chain: &[NameAt],
    pairs: &mut Vec<(u32, u32)>,
) -> Result<(), NoMemory>
    ensures { OnOk result (pairs.new.items ≡ pairs.old.items ++ chain_after (number_of places.now) None chain.now) }
{
    let mut before = None;
    for name in chain {
        let place = places.get(name.name.as_str());
        if let Some(a) = before
            && let Some(b) = place
        {
            pairs.push((a, b))?;
        }
        before = place;
    }
    Ok(())
}
