ghost use Rattle.std.specs.Prelude.{◌≡◌, ◌<◌, ◌^◌, ℕ, List, IfOk, is_some, length};
ghost use Rattle.name_index.specs.Names.{number_of};
ghost use Rattle.unit_check.specs.Connection.{is_own, is_placed};
ghost use Rattle.unit_check.specs.Told.{Tells};

use crate::marks::{mark_placed, mark_read, placed, unmarked};
use design_lexer::{BranchTree, RuleTree};
use name_index::NameIndex;
use name_rules::places_of;
use order_core::{List, NoMemory};
use std::alloc::Global;

/// The ports that the rules of a net name.
#[derive(Drop)]
pub struct NamedPorts {
    /// The own ports that are constrained or ignored.
    pub own: NameIndex,
    /// The numbers of the parts.
    pub parts: NameIndex,
    /// For each part its ports that are constrained or ignored.
    pub placed: List<NameIndex>,
    /// For each part its ports that are read or ignored.
    pub read: List<NameIndex>,
}

/// The ports that the rules name, those of the parts by the numbers of the parts.
pub fn named_ports(
    alloc: Global,
    parts: &[BranchTree],
    rules: &[RuleTree],
) -> Result<NamedPorts, NoMemory>
    requires few { length parts.now < 2 ^ 32 }
    ensures { IfOk result (Tells parts.now rules.now) }
{
    let numbers = places_of(alloc, parts)?;
    let own = own_ports(alloc, rules)?;
    let mut placed = unmarked(alloc, parts.len())?;
    mark_placed(alloc, &numbers, rules, &mut placed)?;
    let mut read = unmarked(alloc, parts.len())?;
    mark_read(alloc, &numbers, rules, &mut read)?;
    Ok(NamedPorts {
        own,
        parts: numbers,
        placed: List::of(placed),
        read: List::of(read),
    })
}

/// The own ports that the rules constrain or ignore.
fn own_ports(alloc: Global, rules: &[RuleTree]) -> Result<NameIndex, NoMemory>
    ensures { IfOk result (λ own. (name : List ℕ) → is_some (number_of own name) ≡ is_placed rules.now (is_own name)) }
{
    let mut own = NameIndex::new(alloc);
    for rule in rules {
        let place = placed(rule);
        match &place.second {
            None => {
                own.add(alloc, place.first.name.as_str(), 0)?;
            }
            Some(_) => {}
        }
    }
    Ok(own)
}
