ghost use Rattle.std.specs.Prelude.{◌≡◌, ◌<◌, ◌&&◌, length, not, is_some};
ghost use Rattle.std.specs.List.{flat_map, list_all};
ghost use Rattle.design_lexer.specs.Sides.{same_side};
ghost use Rattle.fault_list.specs.Answers.{Answers};
ghost use Rattle.fault_list.specs.Faults.{fault_if};
ghost use Rattle.fault_list.specs.declared.fault.Stop.TheVariants.{At};
ghost use Rattle.name_index.specs.Names.{number_of};
ghost use Rattle.name_table.specs.Stems.{has_element};
ghost use Rattle.unit_check.specs.Connection.{unconnected};
ghost use Rattle.unit_check.specs.Declaring.{body_ports, part_ports, ports_at, ports_in};
ghost use Rattle.unit_check.specs.Following.{AreDeclaring};
ghost use Rattle.unit_check.specs.Named.{connected_by};
ghost use Rattle.design_lexer.specs.declared.tree.Side.TheVariants.{Requires};

use crate::named::NamedPorts;
use crate::parameters::Parameters;
use design_lexer::{BodyTree, BranchTree, File, NameAt, PortTree, Side};
use fault_list::{Fault, FaultKind, Stop};
use name_index::NameIndex;
use name_table::Names;

/// The first own required port that no rule constrains or ignores.
pub fn check_own(own: &NameIndex, ports: &[PortTree]) -> Result<(), Stop<Fault>>
    ensures { Answers (flat_map (λ p. fault_if (same_side Requires p.side && not (is_some (number_of own.now p.name.name))) (unconnected p.name)) ports.now) (λ _. Unit {0}) result }
{
    for port in ports {
        if is_required(port.side) && own.get(port.name.name.as_str()).is_none() {
            return Err(unconnected(&port.name));
        }
    }
    Ok(())
}

fn is_required(side: Side) -> bool
    ensures { result ≡ same_side Requires side }
{
    match side {
        Side::Provides => false,
        Side::Requires => true,
    }
}

/// That a port isn't connected, at this name.
fn unconnected(name: &NameAt) -> Stop<Fault>
    ensures { result ≡ At (unconnected name.now) }
{
    Stop::At(Fault {
        kind: FaultKind::Unconnected,
        at: name.at,
    })
}

/// The first instance of which some port isn't connected.
pub fn check_parts(
    names: &Names,
    declaring: &[u32],
    params: &Parameters,
    named: &NamedPorts,
    parts: &[BranchTree],
) -> Result<(), Stop<Fault>>
    requires declaring { AreDeclaring names.now.files declaring.now }
    ensures { Answers (flat_map (λ b. fault_if (not (list_all (connected_by named.now b.name.name) (part_ports names.now.files params.now.trees.now b))) (unconnected b.name)) parts.now) (λ _. Unit {0}) result }
{
    for part in parts {
        let ports = part_ports(names, declaring, params, part);
        if !are_connected(named, part.name.name.as_str(), ports) {
            return Err(unconnected(&part.name));
        }
    }
    Ok(())
}

/// Whether each of the ports of a part is connected.
fn are_connected(named: &NamedPorts, part: &str, ports: &[PortTree]) -> bool
    ensures { result ≡ list_all (connected_by named.now part.now) ports.now }
{
    for port in ports {
        if !is_connected(named, part, port) {
            return false;
        }
    }
    true
}

/// Whether a port of a part is connected.
fn is_connected(named: &NamedPorts, part: &str, port: &PortTree) -> bool
    ensures { result ≡ connected_by named.now part.now port.now }
{
    let number = named.parts.get(part);
    match port.side {
        Side::Provides => has(named.placed.items(), number, port.name.name.as_str()),
        Side::Requires => has(named.read.items(), number, port.name.name.as_str()),
    }
}

/// Whether the names of this number have the name.
fn has(marks: &[NameIndex], number: Option<u32>, name: &str) -> bool
    ensures { result ≡ has_element marks.now number name.now }
{
    let Some(number) = number else {
        return false;
    };
    match marks.get(number as usize) {
        Some(names) => names.get(name).is_some(),
        None => false,
    }
}

/// The ports of a branch or an instance: those of what its reference names.
pub fn part_ports<'a>(
    names: &'a Names,
    declaring: &[u32],
    params: &Parameters,
    part: &BranchTree,
) -> &'a [PortTree]
    requires declaring { AreDeclaring names.now.files declaring.now }
    ensures { result.now ≡ part_ports names.now.files params.now.trees.now part.now }
{
    match params.file(names, part.reference.name.name.as_str()) {
        Some(file) => ports_at(names, declaring, file),
        None => &[],
    }
}

/// The ports of a file: those that it declares, and of a choice those of its first branch.
fn ports_at<'a>(names: &'a Names, declaring: &[u32], file: u32) -> &'a [PortTree]
    requires declaring { AreDeclaring names.now.files declaring.now }
    requires file { file < length names.now.files }
    ensures { result.now ≡ ports_at names.now.files file }
{
    let number = declaring[file as usize];
    match names.files.get(number as usize) {
        Some(file) => ports_in(&file.tree),
        None => &[],
    }
}

/// The ports that a file declares.
pub fn ports_in(file: &File) -> &[PortTree]
    ensures { result.now ≡ ports_in file.now }
{
    match file {
        File::Poset(_) => &[],
        File::Interface(ports) => ports.items(),
        File::Design(body) => body_ports(body),
        File::Template(_, body) => body_ports(body),
    }
}

fn body_ports(body: &BodyTree) -> &[PortTree]
    ensures { result.now ≡ body_ports body.now }
{
    match body {
        BodyTree::Catalogue { ports, .. } => ports.items(),
        BodyTree::Choose(_) => &[],
        BodyTree::Net { ports, .. } => ports.items(),
    }
}
