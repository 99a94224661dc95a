ghost use Rattle.std.specs.Prelude.{◌≡◌, ◌<◌, ◌^◌, ℕ, List, IfOk, is_some, length, map};
ghost use Rattle.name_index.specs.Names.{number_of};
ghost use Rattle.name_rules.specs.Places.{place_of};
ghost use Rattle.name_rules.specs.Twice.{is_listed};

use crate::named::Named;
use name_index::NameIndex;
use order_core::NoMemory;
use std::alloc::Global;

/// The names of the items, each with the place of the first item that has it.
pub fn places_of<T: Named>(alloc: Global, items: &[T]) -> Result<NameIndex, NoMemory>
    requires few { length items.now < 2 ^ 32 }
    ensures { IfOk result (λ names. (name : List ℕ) → number_of names name ≡ place_of T.named items.now name) }
{
    let mut names = NameIndex::new(alloc);
    for (at, item) in items.iter().enumerate() {
        names.add(alloc, item.name().name.as_str(), at as u32)?;
    }
    Ok(names)
}

/// The names of the items.
pub fn names_of<T: Named>(alloc: Global, items: &[T]) -> Result<NameIndex, NoMemory>
    ensures { IfOk result (λ names. (name : List ℕ) → is_some (number_of names name) ≡ is_listed (map T.named items.now) name) }
{
    let mut names = NameIndex::new(alloc);
    for item in items {
        names.add(alloc, item.name().name.as_str(), 0)?;
    }
    Ok(names)
}
