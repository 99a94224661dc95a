ghost use Rattle.std.specs.Prelude.{◌≡◌, ℕ, List, Some, [], ◌∷◌, slice_get};
ghost use Rattle.expr_lower.specs.Literals.{element_of, literal_faults, poset_named, upper_of};
ghost use Rattle.fault_list.specs.Answers.{Answers};
ghost use Rattle.fault_list.specs.Faults.{fault_unless};
ghost use Rattle.name_index.specs.Names.{number_of};
ghost use Rattle.tree_units.specs.Elements.{unknown};
ghost use Rattle.tree_units.specs.Posets.{poset_place};
ghost use Rattle.value_type.specs.Types.{AreNamed};

use crate::meaning::Lower;
use design_lexer::NameAt;
use design_model::Expr;
use fault_list::{Fault, Stop};
use name_index::NameIndex;
use std::alloc::Global;
use tree_units::{element_place, elements_named, unknown};
use value_type::{Kind, Poset, Types, Value};

/// The poset of this name, and its number.
fn poset_named<'a>(
    types: &'a Types,
    posets: &NameIndex,
    name: &NameAt,
) -> Result<(u32, &'a Poset), Stop<Fault>>
    requires posets { (name : List ℕ) → number_of posets.now name ≡ poset_place types.now name }
    ensures { Answers (fault_unless (poset_named types.now name.now.name) (unknown name.now)) (λ found. (poset_place types.now name.now.name ≡ Some found.0) × (slice_get types.now.posets found.0 ≡ Some found.1.now)) result }
{
    if let Some(number) = posets.get(name.name.as_str()) {
        if let Some(poset) = types.posets.get(number as usize) {
            return Ok((number, poset));
        }
    }
    Err(Stop::At(unknown(name)))
}

/// The element that a literal names, and the poset's type.
pub fn element_of(
    types: &Types,
    posets: &NameIndex,
    poset: &NameAt,
    element: &NameAt,
) -> Result<Lower, Stop<Fault>>
    requires types { AreNamed types.now }
    requires posets { (name : List ℕ) → number_of posets.now name ≡ poset_place types.now name }
    ensures { Answers (literal_faults types.now poset.now (element.now ∷ [])) (λ made. Some made ≡ element_of types.now poset.now element.now) result }
{
    let (number, found) = poset_named(types, posets, poset)?;
    match element_place(found, element.name.as_str()) {
        Some(place) => Ok(Lower {
            kind: Kind::Fin(number),
            expr: Expr::Constant(Value::El(place)),
        }),
        None => Err(Stop::At(unknown(element))),
    }
}

/// The upper set of the elements that a literal names, and the type of the poset's upper sets.
pub fn upper_of(
    alloc: Global,
    types: &Types,
    posets: &NameIndex,
    poset: &NameAt,
    elements: &[NameAt],
) -> Result<Lower, Stop<Fault>>
    requires types { AreNamed types.now }
    requires posets { (name : List ℕ) → number_of posets.now name ≡ poset_place types.now name }
    ensures { Answers (literal_faults types.now poset.now elements.now) (λ made. Some made ≡ upper_of types.now poset.now elements.now) result }
{
    let (number, found) = poset_named(types, posets, poset)?;
    let numbers = elements_named(alloc, found, elements)?;
    let members = found.order.minimal_of(alloc, numbers.items())?;
    Ok(Lower {
        kind: Kind::Up(number),
        expr: Expr::Constant(Value::Up(members)),
    })
}
