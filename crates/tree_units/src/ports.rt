ghost use Rattle.std.specs.Prelude.{◌≡◌, ◌++◌, Some, IfOk, OnOk, false, map, string_bytes};
ghost use Rattle.std.specs.List.{flat_map};
ghost use Rattle.fault_list.specs.Answers.{Answers};
ghost use Rattle.fault_list.specs.Faults.{faults_in};
ghost use Rattle.name_index.specs.Names.{number_of};
ghost use Rattle.tree_units.specs.Ports.{counted, factor_text, has_off_grid, is_off_grid, joined_text, kind_of, number_kind, port_faults, port_measure, port_of, port_unit_of, poset_faults, some_off_grid, type_faults, unit_at, unit_text};
ghost use Rattle.tree_units.specs.Together.{together};
ghost use Rattle.unit_core.specs.Measure.{measure};
ghost use Rattle.unit_core.specs.Results.{map_ok};

use crate::unit::{is_whole, unit_of};
use design_lexer::{FactorTree, NameAt, PortTree, TypeTree};
use fault_list::{Fault, FaultKind, Stop};
use name_index::NameIndex;
use order_core::{List, NoMemory, Text};
use std::alloc::{AllocError, Global};
use unit_core::{Dim, Unit};
use value_type::{Kind, Port, PortUnit};

/// A type, and how its values are written.
#[derive(Drop)]
struct Typed {
    kind: Kind,
    unit: PortUnit,
}

/// Those of each part of a product, in order.
#[derive(Drop)]
struct Parts {
    kinds: Vec<Kind>,
    units: Vec<PortUnit>,
}

/// The port that the tree writes, with its type and unit.
///
/// Its faults in this order: `PortGrid` at the first token of the type, where some unit in it breaks no rule of units
/// and its size isn't whole; from left to right the first fault of each unit, at the unit's first token, and `Unknown`
/// at each poset that isn't there. An unknown name in a unit stands at the name.
pub fn port_of(alloc: Global, tree: &PortTree, posets: &NameIndex) -> Result<Port, Stop<Fault>>
    ensures { Answers (port_faults (number_of posets.now) tree.now) (λ port. Some port ≡ port_of (number_of posets.now) tree.now) result }
{
    if has_off_grid(&tree.kind) {
        return Err(Stop::At(Fault {
            kind: FaultKind::PortGrid,
            at: tree.at,
        }));
    }
    let name = tree.name.name.copy(alloc)?;
    let typed = type_of(alloc, &tree.kind, posets)?;
    Ok(Port {
        name,
        kind: typed.kind,
        unit: typed.unit,
    })
}

/// The unit as it is written, without spaces.
pub fn unit_text(alloc: Global, factors: &[FactorTree]) -> Result<Text, NoMemory>
    ensures { IfOk result (λ text. text ≡ unit_text factors.now) }
{
    let mut text = String::new(alloc);
    if let Some((first, others)) = factors.split_first() {
        push_factor(&mut text, first)?;
        push_others(&mut text, others)?;
    }
    Ok(Text::of(text))
}

/// The factors that follow the first one.
fn push_others(text: &mut String, factors: &[FactorTree]) -> Result<(), AllocError>
    ensures { OnOk result (string_bytes text.new ≡ string_bytes text.old ++ flat_map joined_text factors.now) }
{
    for factor in factors {
        push_joined(text, factor)?;
    }
    Ok(())
}

/// A factor that follows another one.
fn push_joined(text: &mut String, factor: &FactorTree) -> Result<(), AllocError>
    ensures { OnOk result (string_bytes text.new ≡ string_bytes text.old ++ joined_text factor.now) }
{
    if factor.divided {
        text.push_str("/")?;
    } else {
        text.push_str(".")?;
    }
    push_factor(text, factor)
}

fn push_factor(text: &mut String, factor: &FactorTree) -> Result<(), AllocError>
    ensures { OnOk result (string_bytes text.new ≡ string_bytes text.old ++ factor_text factor.now) }
{
    text.push_str(factor.name.name.as_str())?;
    if factor.power.is_none() {
        return Ok(());
    }
    text.push_str("^")?;
    if factor.negative {
        text.push_str("-")?;
    }
    text.push_str(factor.written.as_str())
}

/// The place of the unit's first token.
fn unit_at(factors: &[FactorTree]) -> u64
    ensures { result ≡ unit_at factors.now }
{
    match factors.first() {
        Some(factor) => factor.name.at,
        None => 0,
    }
}

/// The unit, or its first fault, which stands at the unit's first token.
fn port_unit(factors: &[FactorTree]) -> Result<Unit, Fault>
    ensures { map_ok measure result ≡ port_measure factors.now }
{
    unit_of(factors, unit_at(factors))
}

/// Whether the unit breaks no rule of units, and its size isn't whole.
fn is_off_grid(factors: &[FactorTree]) -> bool
    ensures { result ≡ is_off_grid factors.now }
{
    match port_unit(factors) {
        Ok(unit) => !is_whole(unit),
        Err(_) => false,
    }
}

/// Whether some unit in the type, at any depth, is off the grid.
#[cycle(grid)]
fn has_off_grid(tree: &TypeTree) -> bool
    ensures { result ≡ has_off_grid tree.now }
{
    match tree {
        TypeTree::Unit(factors) => is_off_grid(factors.items()),
        TypeTree::Product(parts) => some_off_grid(parts.items()),
        _ => false,
    }
}

/// Whether that is so of one of the types.
#[cycle(grid)]
fn some_off_grid(trees: &[TypeTree]) -> bool
    ensures { result ≡ some_off_grid trees.now }
{
    for tree in trees {
        if has_off_grid(tree) {
            return true;
        }
    }
    false
}

/// The number of the poset of this name.
fn poset_number(name: &NameAt, posets: &NameIndex) -> Result<u32, Stop<Fault>>
    ensures { Answers (poset_faults (number_of posets.now) name.now) (λ number. Some number ≡ number_of posets.now name.now.name) result }
{
    match posets.get(name.name.as_str()) {
        Some(number) => Ok(number),
        None => Err(Stop::At(Fault {
            kind: FaultKind::Unknown,
            at: name.at,
        })),
    }
}

/// The type of numbers of the unit.
fn number_type(alloc: Global, factors: &[FactorTree]) -> Result<Typed, Stop<Fault>>
    requires on_grid { is_off_grid factors.now ≡ false }
    ensures { Answers (faults_in (port_measure factors.now)) (λ made. (Some made.kind ≡ number_kind (port_measure factors.now)) × (Some made.unit ≡ counted (unit_text factors.now) (port_measure factors.now))) result }
{
    let unit = match port_unit(factors) {
        Ok(unit) => unit,
        Err(fault) => return Err(Stop::At(fault)),
    };
    let text = unit_text(alloc, factors)?;
    Ok(Typed {
        kind: Kind::Num(unit.dim),
        unit: PortUnit::Unit {
            text,
            size: unit.size.num,
        },
    })
}

/// The type that the tree writes, and its unit.
#[cycle(types)]
fn type_of(alloc: Global, tree: &TypeTree, posets: &NameIndex) -> Result<Typed, Stop<Fault>>
    requires on_grid { has_off_grid tree.now ≡ false }
    ensures { Answers (type_faults (number_of posets.now) tree.now) (λ made. (Some made.kind ≡ kind_of (number_of posets.now) tree.now) × (Some made.unit ≡ port_unit_of tree.now)) result }
{
    match tree {
        TypeTree::Nat => Ok(Typed {
            kind: Kind::Num(Dim::NONE),
            unit: PortUnit::Nat,
        }),
        TypeTree::Unit(factors) => number_type(alloc, factors.items()),
        TypeTree::Poset(name) => Ok(Typed {
            kind: Kind::Fin(poset_number(name, posets)?),
            unit: PortUnit::Poset,
        }),
        TypeTree::Up(name) => Ok(Typed {
            kind: Kind::Up(poset_number(name, posets)?),
            unit: PortUnit::Poset,
        }),
        TypeTree::Product(parts) => {
            let parts = types_of(alloc, parts.items(), posets)?;
            Ok(Typed {
                kind: Kind::Prod(List::of(parts.kinds)),
                unit: PortUnit::Parts(List::of(parts.units)),
            })
        }
    }
}

/// The types that the trees write, and their units.
#[cycle(types)]
fn types_of(alloc: Global, trees: &[TypeTree], posets: &NameIndex) -> Result<Parts, Stop<Fault>>
    requires on_grid { some_off_grid trees.now ≡ false }
    ensures { Answers (flat_map (type_faults (number_of posets.now)) trees.now) (λ made. (Some made.kinds.items ≡ together (map (kind_of (number_of posets.now)) trees.now)) × (Some made.units.items ≡ together (map port_unit_of trees.now))) result }
{
    let mut kinds = Vec::new(alloc);
    let mut units = Vec::new(alloc);
    for tree in trees {
        let typed = type_of(alloc, tree, posets)?;
        kinds.push(typed.kind)?;
        units.push(typed.unit)?;
    }
    Ok(Parts { kinds, units })
}
