ghost use Rattle.std.specs.Prelude.{◌≡◌, IsTrue, Some};
ghost use Rattle.fault_list.specs.Answers.{Answers};
ghost use Rattle.tree_units.specs.Elements.{element_place, elements_named, unknown, unknown_elements};
ghost use Rattle.value_type.specs.Types.{has_names};

use design_lexer::NameAt;
use fault_list::{Fault, FaultKind, Stop};
use order_core::List;
use std::alloc::Global;
use value_type::Poset;

/// The name leads nowhere.
pub fn unknown(name: &NameAt) -> Fault
    ensures { result ≡ unknown name.now }
{
    Fault {
        kind: FaultKind::Unknown,
        at: name.at,
    }
}

/// The number of the first element of this name in the poset.
pub fn element_place(poset: &Poset, name: &str) -> Option<u32>
    requires { IsTrue (has_names poset.now) }
    ensures { result ≡ element_place poset.now name.now }
{
    for (at, element) in poset.elements.items().iter().enumerate() {
        if name == element.as_str() {
            return Some(at as u32);
        }
    }
    None
}

/// The numbers of the elements named, or the first name that no element of the poset has.
pub fn elements_named(
    alloc: Global,
    poset: &Poset,
    names: &[NameAt],
) -> Result<List<u32>, Stop<Fault>>
    requires { IsTrue (has_names poset.now) }
    ensures { Answers (unknown_elements poset.now names.now) (λ made. Some made ≡ elements_named poset.now names.now) result }
{
    let mut numbers = Vec::new(alloc);
    for name in names {
        let Some(number) = element_place(poset, name.name.as_str()) else {
            return Err(Stop::At(unknown(name)));
        };
        numbers.push(number)?;
    }
    Ok(List::of(numbers))
}
