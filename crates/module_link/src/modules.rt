ghost use Rattle.std.specs.Prelude.{◌≡◌, ◌<◌, [], IfOk, IsErrOf, Some, length, slice_get};
ghost use Rattle.std.specs.Option.{option_copied};
ghost use Rattle.catalogue_read.specs.Catalogues.{HasRows};
ghost use Rattle.module_link.specs.Links.{AreModulesOf, IsModuleAt, IsUnresolved};
ghost use Rattle.name_table.specs.declared.source.SourceFile.{SourceFile as Source};
ghost use Rattle.order_core.specs.Members.{IsMember};
ghost use Rattle.order_core.specs.Pointwise.{Pointwise};
ghost use Rattle.reference_meaning.specs.Sources as meaning;
ghost use Rattle.side_ports.specs.Held.{sides_held};
ghost use Rattle.side_ports.specs.Sides.{sides_of};
ghost use Rattle.unit_check.specs.Declaring.{tree_ports};
ghost use Rattle.unit_check.specs.Held.{IsTable};
ghost use Rattle.unit_check.specs.TypeFaults.{type_faults};

use crate::body::body_of;
use crate::fault::LinkFault;
use design_lexer::{BodyTree, File};
use design_model::CatRow;
use name_table::{Names, SourceFile};
use order_core::List;
use reference_meaning::Module;
use side_ports::SidePorts;
use std::alloc::Global;
use unit_check::{PortTable, Shared};
use value_type::copy_ports;

/// The modules of a library whose types have no fault, where these are the rows of its files: each design and template
/// with its names resolved, under the number of its file.
pub fn modules_of(
    alloc: Global,
    names: &Names,
    table: &mut PortTable,
    rows: List<List<CatRow>>,
) -> Result<List<Option<Module>>, LinkFault>
    requires table { IsTable names.now.files names.now.types table.old }
    requires types { type_faults names.now.files names.now.types ≡ [] }
    requires rows { Pointwise (HasRows names.now.tables names.now.types) names.now.files rows }
    ensures table { IsTable names.now.files names.now.types table.new }
    ensures modules { IfOk result (AreModulesOf names.now.files names.now.tables names.now.types) }
    ensures unresolved { IsErrOf result LinkFault.Unresolved → (f : Source) × IsMember f names.now.files × IsUnresolved names.now.files f }
{
    let mut made = Vec::new(alloc);
    for rows in rows.into_vec() {
        let number = made.len();
        let file = &names.files.items()[number];
        let named = module_of(alloc, names, table, number as u32, file, rows)?;
        made.push(named)?;
    }
    Ok(List::of(made))
}

/// The module of a file with these rows. A file that is no design or template has none.
fn module_of(
    alloc: Global,
    names: &Names,
    table: &mut PortTable,
    number: u32,
    file: &SourceFile,
    rows: List<CatRow>,
) -> Result<Option<Module>, LinkFault>
    requires table { IsTable names.now.files names.now.types table.old }
    requires types { type_faults names.now.files names.now.types ≡ [] }
    requires number { slice_get names.now.files number ≡ Some file.now }
    ensures table { IsTable names.now.files names.now.types table.new }
    ensures named { IfOk result (IsModuleAt names.now.files names.now.types number file.now rows (meaning.body_of file.now.tree)) }
    ensures unresolved { IsErrOf result LinkFault.Unresolved → IsUnresolved names.now.files file.now }
{
    let Some(tree) = body_tree(&file.tree) else {
        return Ok(None);
    };
    let body = body_of(alloc, names, table, number, file, tree, rows)?;
    let ports = declared(alloc, names, table, number)?;
    Ok(Some(Module {
        provides: copy_ports(alloc, ports.get().provides.items())?,
        requires_: copy_ports(alloc, ports.get().requires_.items())?,
        body,
    }))
}

/// The body of a design or a template.
fn body_tree(tree: &File) -> Option<&BodyTree>
    ensures { option_copied result ≡ meaning.body_of tree.now }
{
    match tree {
        File::Design(body) => Some(body),
        File::Template(_, body) => Some(body),
        _ => None,
    }
}

/// The ports that the file of this number declares. They have no fault, so only memory can be wanting.
fn declared(
    alloc: Global,
    names: &Names,
    table: &mut PortTable,
    number: u32,
) -> Result<Shared<SidePorts>, LinkFault>
    requires table { IsTable names.now.files names.now.types table.old }
    requires types { type_faults names.now.files names.now.types ≡ [] }
    requires number { number < length names.now.files }
    ensures table { IsTable names.now.files names.now.types table.new }
    ensures ports { IfOk result (λ ports. sides_held ports ≡ sides_of names.now.types (tree_ports (slice_get names.now.files number))) }
    ensures memory { IsErrOf result LinkFault.Unresolved → ⊥ }
{
    match table.declared(alloc, names, number) {
        Ok(ports) => Ok(ports),
        Err(_) => Err(LinkFault::Memory),
    }
}
