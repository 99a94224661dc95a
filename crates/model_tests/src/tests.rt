use order_core::{FiniteOrder, List, Text};
use std::alloc::{AllocError, Global};
use std::test::Fail;
use unit_core::Dim;
use value_type::{Kind, Poset, Types};

mod antichains;
mod ascents;
mod catalogues;
mod cuts;
mod designs;
mod orders;
mod units;
mod values;

/// The type of plain numbers.
const NUMBERS: Kind = Kind::Num(Dim::NONE);

/// A test fails where this is false.
fn expect(holds: bool, what: &str) -> Result<(), Fail> {
    if holds { Ok(()) } else { Err(Fail::new(what)) }
}

fn text(alloc: Global, text: &str) -> Result<Text, AllocError> {
    Ok(Text::of(String::from_str(alloc, text)?))
}

/// One poset of four elements: 0 and 1, which aren't compared, and 2 and 3 above both, which aren't either.
fn crossed(alloc: Global) -> Result<Types, Fail> {
    let order = FiniteOrder::close(alloc, 4, &[(0, 2), (0, 3), (1, 2), (1, 3)])?;
    let poset = Poset {
        name: text(alloc, "crossed")?,
        elements: List::of(Vec::new(alloc)),
        order,
    };
    Ok(Types {
        posets: List::of(vec![in alloc; poset]?),
    })
}
