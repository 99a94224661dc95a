ghost use Rattle.std.specs.Prelude.{◌≡◌, ◌↔◌, IsTrue, OnOk};
ghost use Rattle.fault_list.specs.Faults.{earlier, least};
ghost use Rattle.name_rules.specs.Sizes.{IsFew, IsSmall, IsSmallBody};
ghost use Rattle.name_rules.specs.Twice.{body_repeats, twice_faults};

use crate::references::{note_shared, note_twice_branches};
use crate::twice::{note_twice, note_twice_ports};
use design_lexer::{BodyTree, File};
use fault_list::Fault;
use order_core::NoMemory;
use std::alloc::Global;

/// So many numbers have 32 bits.
const MANY: usize = 1 << 32;

/// Whether each list of the file has fewer than 2^32 members: its elements, parameters, ports, rows, branches,
/// instances and rules.
pub fn is_small(file: &File) -> bool
    ensures { IsTrue result ↔ IsSmall file.now }
{
    match file {
        File::Poset(poset) => is_few(poset.elements.items()),
        File::Interface(ports) => is_few(ports.items()),
        File::Design(body) => is_small_body(body),
        File::Template(params, body) => is_few(params.items()) && is_small_body(body),
    }
}

fn is_small_body(body: &BodyTree) -> bool
    ensures { IsTrue result ↔ IsSmallBody body.now }
{
    match body {
        BodyTree::Catalogue { ports, rows, .. } => is_few(ports.items()) && is_few(rows.items()),
        BodyTree::Choose(branches) => is_few(branches.items()),
        BodyTree::Net {
            ports,
            parts,
            rules,
        } => is_few(ports.items()) && is_few(parts.items()) && is_few(rules.items()),
    }
}

/// Whether the list has fewer than 2^32 members.
fn is_few<T>(items: &[T]) -> bool
    ensures { IsTrue result ↔ IsFew items.now }
{
    items.len() < MANY
}

/// Notes each name of the file that stands twice where it may stand once.
pub fn note_twice_in_file(
    alloc: Global,
    file: &File,
    first: &mut Option<Fault>,
) -> Result<(), NoMemory>
    requires small { IsSmall file.now }
    ensures { OnOk result (first.new ≡ earlier first.old (least (twice_faults file.now))) }
{
    match file {
        File::Poset(poset) => note_twice(alloc, poset.elements.items(), first),
        File::Interface(ports) => note_twice_ports(alloc, ports.items(), first),
        File::Design(body) => note_twice_in_body(alloc, body, first),
        File::Template(params, body) => {
            note_twice(alloc, params.items(), first)?;
            note_twice_in_body(alloc, body, first)
        }
    }
}

/// Notes each name of the body that stands twice where it may stand once.
fn note_twice_in_body(
    alloc: Global,
    body: &BodyTree,
    first: &mut Option<Fault>,
) -> Result<(), NoMemory>
    requires small { IsSmallBody body.now }
    ensures { OnOk result (first.new ≡ earlier first.old (least (body_repeats body.now))) }
{
    match body {
        BodyTree::Catalogue { ports, rows, .. } => {
            note_twice_ports(alloc, ports.items(), first)?;
            note_twice(alloc, rows.items(), first)
        }
        BodyTree::Choose(branches) => {
            note_twice(alloc, branches.items(), first)?;
            note_twice_branches(alloc, branches.items(), first)
        }
        BodyTree::Net { ports, parts, .. } => {
            note_twice_ports(alloc, ports.items(), first)?;
            note_twice(alloc, parts.items(), first)?;
            note_shared(alloc, ports.items(), parts.items(), first)?;
            note_twice_branches(alloc, parts.items(), first)
        }
    }
}
