ghost use Rattle.std.specs.Prelude.{◌≡◌, map};
ghost use Rattle.std.specs.Option.{option_copied};
ghost use Rattle.design_lexer.specs.declared.tree.ValueTree.{out-ValueTree};
ghost use Rattle.row_values.specs.Values as spec;
ghost use Rattle.row_values.specs.declared.value.CellFault.TheVariants.{Memory};
ghost use Rattle.value_type.specs.Types.{AreNamed};

use design_lexer::{ConstantTree, ValueTree};
use fault_list::Stop;
use order_core::{List, NoMemory};
use std::alloc::{AllocFailed, Global};
use tree_units::{constant_of, element_place, elements_named};
use unit_core::{Dim, Fraction};
use value_type::{Kind, Poset, Types, Value};

/// How a fraction becomes a whole count.
#[derive(Clone, Copy, Debug, PartialEq, Eq)]
pub enum Rounding {
    Up,
    Down,
}

/// Why a tree has no value.
#[derive(Clone, Copy, Debug, PartialEq, Eq)]
pub enum CellFault {
    /// It means no value of the type.
    Bad,
    /// Memory was refused.
    Memory,
}

impl From<NoMemory> for CellFault {
    ghost from_gives = { λ _ fault. fault ≡ Memory };

    fn from(_error: NoMemory) -> CellFault {
        CellFault::Memory
    }
}

impl<T: Drop> From<AllocFailed<T>> for CellFault {
    ghost from_gives = { λ _ fault. fault ≡ Memory };

    fn from(_error: AllocFailed<T>) -> CellFault {
        CellFault::Memory
    }
}

/// The value of the type that the tree means: a whole count of the grid's units, an element, an upper set or a tuple.
///
/// `Bad` where it means none: a unit, poset or element isn't there, a constant breaks a rule or has another dimension,
/// or the tree has another form than the type.
#[cycle(value)]
pub fn value_of_tree(
    alloc: Global,
    tree: &ValueTree,
    types: &Types,
    kind: &Kind,
    rounding: Rounding,
) -> Result<Value, CellFault>
    requires types { AreNamed types.now }
    ensures { spec.Gives (spec.value_meant types.now rounding kind.now tree.now) result }
{
    match kind {
        Kind::Num(dim) => number_of(tree, *dim, rounding),
        Kind::Fin(number) => element_of(types, *number, tree),
        Kind::Up(number) => upper_of(alloc, types, *number, tree),
        Kind::Prod(kinds) => match tree {
            ValueTree::Tuple { parts, .. } => Ok(Value::Tup(values_of_trees(
                alloc,
                parts.items(),
                types,
                kinds.items(),
                rounding,
            )?)),
            _ => Err(CellFault::Bad),
        },
    }
}

/// The values of the types that the trees mean, one for each.
#[cycle(value)]
fn values_of_trees(
    alloc: Global,
    trees: &[ValueTree],
    types: &Types,
    kinds: &[Kind],
    rounding: Rounding,
) -> Result<List<Value>, CellFault>
    requires types { AreNamed types.now }
    ensures { spec.Gives (spec.each_meant (map (spec.value_meant types.now rounding) kinds.now) trees.now) result }
{
    if trees.len() != kinds.len() {
        return Err(CellFault::Bad);
    }
    let mut values = Vec::new(alloc);
    for (at, tree) in trees.iter().enumerate() {
        let value = value_of_tree(alloc, tree, types, &kinds[at], rounding)?;
        values.push(value)?;
    }
    Ok(List::of(values))
}

/// The number of this dimension that the tree means.
fn number_of(tree: &ValueTree, dim: Dim, rounding: Rounding) -> Result<Value, CellFault>
    ensures { spec.Gives (spec.number_meant rounding dim (out-ValueTree tree.now)) result }
{
    match tree {
        ValueTree::Top { .. } => Ok(Value::Top),
        ValueTree::Constant(constant) => count_of(constant, dim, rounding),
        _ => Err(CellFault::Bad),
    }
}

/// The whole count that the constant is rounded to, if it is of this dimension.
fn count_of(tree: &ConstantTree, dim: Dim, rounding: Rounding) -> Result<Value, CellFault>
    ensures { spec.Gives (spec.count_meant rounding dim tree.now) result }
{
    match constant_of(tree) {
        Ok(constant) => {
            if constant.dim != dim {
                return Err(CellFault::Bad);
            }
            Ok(Value::Num(rounded(rounding, constant.fraction)))
        }
        Err(_) => Err(CellFault::Bad),
    }
}

fn rounded(rounding: Rounding, fraction: Fraction) -> u64
    ensures { result ≡ spec.rounded rounding fraction }
{
    match rounding {
        Rounding::Up => fraction.round_up(),
        Rounding::Down => fraction.round_down(),
    }
}

/// The poset of this number, if it has this name.
fn poset_at<'a>(types: &'a Types, number: u32, name: &str) -> Option<&'a Poset>
    ensures { option_copied result ≡ spec.poset_at types.now number name.now }
{
    let poset = types.posets.get(number as usize)?;
    if name == poset.name.as_str() {
        Some(poset)
    } else {
        None
    }
}

/// The element of the poset of this number that the tree names.
fn element_of(types: &Types, number: u32, tree: &ValueTree) -> Result<Value, CellFault>
    requires types { AreNamed types.now }
    ensures { spec.Gives (spec.element_meant types.now number (out-ValueTree tree.now)) result }
{
    let ValueTree::Element { poset, element } = tree else {
        return Err(CellFault::Bad);
    };
    let Some(found) = poset_at(types, number, poset.name.as_str()) else {
        return Err(CellFault::Bad);
    };
    match element_place(found, element.name.as_str()) {
        Some(place) => Ok(Value::El(place)),
        None => Err(CellFault::Bad),
    }
}

/// The upper set of the elements of the poset of this number that the tree names.
fn upper_of(alloc: Global, types: &Types, number: u32, tree: &ValueTree) -> Result<Value, CellFault>
    requires types { AreNamed types.now }
    ensures { spec.Gives (spec.upper_meant types.now number (out-ValueTree tree.now)) result }
{
    let ValueTree::Upper { poset, elements } = tree else {
        return Err(CellFault::Bad);
    };
    let Some(found) = poset_at(types, number, poset.name.as_str()) else {
        return Err(CellFault::Bad);
    };
    let numbers = match elements_named(alloc, found, elements.items()) {
        Ok(numbers) => numbers,
        Err(Stop::At(_)) => return Err(CellFault::Bad),
        Err(Stop::Memory) => return Err(CellFault::Memory),
    };
    Ok(Value::Up(found.order.minimal_of(alloc, numbers.items())?))
}
