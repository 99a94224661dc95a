ghost use Rattle.std.specs.Prelude.{◌≡◌, OnOk, map};
ghost use Rattle.std.specs.List.{flat_map};
ghost use Rattle.fault_list.specs.Faults.{earlier, least};
ghost use Rattle.name_rules.specs.Twice.{is_listed};
ghost use Rattle.name_rules.specs.Unknown.{body_unknown, table_unknown, unknown_faults, unknown_names};

use crate::library::Library;
use crate::places::names_of;
use crate::unknown::expressions::note_unknown_in_rules;
use crate::unknown::names::{note_not_in, note_unless};
use crate::unknown::references::note_unknown_branches;
use crate::unknown::types::note_unknown_ports;
use design_lexer::{BodyTree, File, NameAt, ParamTree, PosetTree};
use fault_list::Fault;
use order_core::NoMemory;
use std::alloc::Global;

/// Notes each name of the chains that is none of the poset's elements.
fn note_unknown_in_chains(
    alloc: Global,
    poset: &PosetTree,
    first: &mut Option<Fault>,
) -> Result<(), NoMemory>
    ensures { OnOk result (first.new ≡ earlier first.old (least (flat_map (unknown_names (is_listed poset.now.elements)) poset.now.chains))) }
{
    let elements = names_of(alloc, poset.elements.items())?;
    for chain in poset.chains.items() {
        note_not_in(&elements, chain.items(), first);
    }
    Ok(())
}

/// Notes the table, where it is named and isn't there.
fn note_unknown_table<L: Library>(library: &L, table: &Option<NameAt>, first: &mut Option<Fault>)
    ensures { first.new ≡ earlier first.old (least (table_unknown (L.known library.now) table.now)) }
{
    if let Some(table) = table {
        note_unless(library.has_table(table.name.as_str()), table, first);
    }
}

/// Notes each parameter's interface that isn't there.
fn note_unknown_interfaces<L: Library>(library: &L, params: &[ParamTree], first: &mut Option<Fault>)
    ensures { first.new ≡ earlier first.old (least (unknown_names (L.known library.now).interface (map (λ p. p.interface) params.now))) }
{
    for param in params {
        let found = library.has_interface(param.interface.name.as_str());
        note_unless(found, &param.interface, first);
    }
}

/// Notes each name of the body that leads nowhere. It may name parameters.
fn note_unknown_in_body<L: Library>(
    alloc: Global,
    library: &L,
    params: &[ParamTree],
    body: &BodyTree,
    first: &mut Option<Fault>,
) -> Result<(), NoMemory>
    ensures { OnOk result (first.new ≡ earlier first.old (least (body_unknown (L.known library.now) params.now body.now))) }
{
    match body {
        BodyTree::Catalogue { ports, table, .. } => {
            note_unknown_ports(library, ports.items(), first);
            note_unknown_table(library, table, first);
            Ok(())
        }
        BodyTree::Choose(branches) => {
            note_unknown_branches(alloc, library, params, branches.items(), first)
        }
        BodyTree::Net {
            ports,
            parts,
            rules,
        } => {
            note_unknown_ports(library, ports.items(), first);
            note_unknown_branches(alloc, library, params, parts.items(), first)?;
            note_unknown_in_rules(library, rules.items(), first);
            Ok(())
        }
    }
}

/// Notes each name of the file that leads nowhere.
pub fn note_unknown_in_file<L: Library>(
    alloc: Global,
    library: &L,
    file: &File,
    first: &mut Option<Fault>,
) -> Result<(), NoMemory>
    ensures { OnOk result (first.new ≡ earlier first.old (least (unknown_faults (L.known library.now) file.now))) }
{
    match file {
        File::Poset(poset) => note_unknown_in_chains(alloc, poset, first),
        File::Interface(ports) => {
            note_unknown_ports(library, ports.items(), first);
            Ok(())
        }
        File::Design(body) => note_unknown_in_body(alloc, library, &[], body, first),
        File::Template(params, body) => {
            note_unknown_interfaces(library, params.items(), first);
            note_unknown_in_body(alloc, library, params.items(), body, first)
        }
    }
}
