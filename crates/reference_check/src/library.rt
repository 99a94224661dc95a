ghost use Rattle.std.specs.Prelude.{◌≡◌, ◌<◌, [], Some, length, map};
ghost use Rattle.std.specs.List.{flat_map};
ghost use Rattle.fault_list.specs.Answers.{Answers};
ghost use Rattle.name_table.specs.Files.{is_design, is_interface, stem_place};
ghost use Rattle.reference_check.specs.Fronts.{front_in, wanted_held};
ghost use Rattle.reference_check.specs.LibraryFronts.{AreFrontsOf, front_at, wanted_of};
ghost use Rattle.side_ports.specs.Held.{sides_held};
ghost use Rattle.side_ports.specs.Sides.{sides_of};
ghost use Rattle.name_rules.specs.Sizes.{IsSmall};
ghost use Rattle.unit_check.specs.Declaring.{ports_of};
ghost use Rattle.unit_check.specs.Declaring as spec;
ghost use Rattle.unit_check.specs.Held.{IsTable};
ghost use Rattle.unit_check.specs.TypeFaults.{file_port_faults};

use crate::front::{Front, Wanted};
use design_lexer::{File, ParamTree};
use fault_list::StageFault;
use name_rules::places_of;
use name_table::Names;
use order_core::List;
use side_ports::SidePorts;
use std::alloc::Global;
use unit_check::{PortTable, Shared};

/// The ports of the interface of this name.
fn interface_ports(
    alloc: Global,
    names: &Names,
    table: &mut PortTable,
    interface: &str,
) -> Result<Shared<SidePorts>, StageFault>
    requires table { IsTable names.now.files names.now.types table.old }
    requires ports { flat_map (file_port_faults names.now.types) names.now.files ≡ [] }
    ensures table { IsTable names.now.files names.now.types table.new }
    ensures answer { Answers [] (λ ports. sides_held ports ≡ sides_of names.now.types (ports_of names.now.files (stem_place is_interface names.now.files interface.now))) result }
{
    match names.interface(interface) {
        Some(file) => table.ports(alloc, names, file),
        None => Ok(Shared::of(alloc, SidePorts::none(alloc))?),
    }
}

/// A parameter, with the ports of its interface.
fn wanted_of(
    alloc: Global,
    names: &Names,
    table: &mut PortTable,
    param: &ParamTree,
) -> Result<Wanted, StageFault>
    requires table { IsTable names.now.files names.now.types table.old }
    requires ports { flat_map (file_port_faults names.now.types) names.now.files ≡ [] }
    ensures table { IsTable names.now.files names.now.types table.new }
    ensures answer { Answers [] (λ made. wanted_held made ≡ wanted_of names.now.files names.now.types param.now) result }
{
    let ports = interface_ports(alloc, names, table, param.interface.name.as_str())?;
    let name = param.name.name.copy(alloc)?;
    Ok(Wanted { name, ports })
}

/// The parameters of a file, with the ports of their interfaces.
fn all_wanted(
    alloc: Global,
    names: &Names,
    table: &mut PortTable,
    params: &[ParamTree],
) -> Result<List<Wanted>, StageFault>
    requires table { IsTable names.now.files names.now.types table.old }
    requires ports { flat_map (file_port_faults names.now.types) names.now.files ≡ [] }
    ensures table { IsTable names.now.files names.now.types table.new }
    ensures answer { Answers [] (λ made. map wanted_held made ≡ map (wanted_of names.now.files names.now.types) params.now) result }
{
    let mut made = Vec::new(alloc);
    for param in params {
        made.push(wanted_of(alloc, names, table, param)?)?;
    }
    Ok(List::of(made))
}

/// The front of a file, if it is a design or template.
fn front_of_file(
    alloc: Global,
    names: &Names,
    table: &mut PortTable,
    number: u32,
    tree: &File,
) -> Result<Option<Front>, StageFault>
    requires table { IsTable names.now.files names.now.types table.old }
    requires ports { flat_map (file_port_faults names.now.types) names.now.files ≡ [] }
    requires number { number < length names.now.files }
    requires small { IsSmall tree.now }
    ensures table { IsTable names.now.files names.now.types table.new }
    ensures answer { Answers [] (λ made. front_in (Some made) ≡ front_at names.now.files names.now.types number tree.now) result }
{
    if !is_design(tree) {
        return Ok(None);
    }
    let params = params_of(tree);
    let numbers = places_of(alloc, params)?;
    let wanted = all_wanted(alloc, names, table, params)?;
    let ports = table.ports(alloc, names, number)?;
    Ok(Some(Front {
        wanted,
        ports,
        numbers,
    }))
}

/// Whether a file is a design or template.
fn is_design(tree: &File) -> bool
    ensures { result ≡ is_design tree.now }
{
    match tree {
        File::Design(_) | File::Template(_, _) => true,
        _ => false,
    }
}

/// The parameters of a file.
fn params_of(file: &File) -> &[ParamTree]
    ensures { result.now ≡ spec.params_of file.now }
{
    match file {
        File::Template(params, _) => params.items(),
        _ => &[],
    }
}

/// The fronts of all files of a library whose ports have no fault.
pub fn fronts_of(
    alloc: Global,
    names: &Names,
    table: &mut PortTable,
) -> Result<List<Option<Front>>, StageFault>
    requires table { IsTable names.now.files names.now.types table.old }
    requires ports { flat_map (file_port_faults names.now.types) names.now.files ≡ [] }
    ensures table { IsTable names.now.files names.now.types table.new }
    ensures answer { Answers [] (AreFrontsOf names.now.files names.now.types) result }
{
    let mut made = Vec::new(alloc);
    for (number, file) in names.files.items().iter().enumerate() {
        made.push(front_of_file(alloc, names, table, number as u32, &file.tree)?)?;
    }
    Ok(List::of(made))
}
