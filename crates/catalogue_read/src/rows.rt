ghost use Rattle.std.specs.Prelude.{◌≡◌, ◌<◌, ◌^◌, [], IfOk, Some, length, slice_get};
ghost use Rattle.std.specs.List.{flat_map};
ghost use Rattle.std.specs.Option.{option_copied};
ghost use Rattle.catalogue_read.specs.Catalogues as spec;
ghost use Rattle.catalogue_read.specs.Catalogues.{Catalogue, HasBadRow, HasRows, HasSoundPorts};
ghost use Rattle.fault_list.specs.FirstBad.{AnswersBy};
ghost use Rattle.name_rules.specs.Sizes.{IsSmall};
ghost use Rattle.name_table.specs.declared.source.SourceFile.{SourceFile};
ghost use Rattle.side_ports.specs.Held.{sides_held};
ghost use Rattle.side_ports.specs.Sides.{sides_of};
ghost use Rattle.tree_units.specs.Ports.{port_faults};
ghost use Rattle.tree_units.specs.Posets.{poset_place};
ghost use Rattle.value_type.specs.Types.{AreNamed};

use crate::catalogue::{CatalogueTree, catalogue_of};
use design_lexer::{NameAt, PortTree, RowTree};
use design_model::CatRow;
use fault_list::{Fault, FaultKind, StageFault, Stop, in_file};
use name_table::{Names, SourceFile, Table};
use order_core::{List, NoMemory, Text};
use row_values::{Columns, rows_of_table, rows_of_trees};
use side_ports::{SidePorts, side_ports};
use std::alloc::Global;
use value_type::Types;

/// The rows of the file of this number, or the first of what is wrong with them. A file that is no catalogue has none.
///
/// Of a catalogue that names no table `NoRows`, `RowWidth` or `BadCell` in this file. Of one that names a table the same
/// of the table, in the table's file, at the number of the record. `ports` are those that the catalogue declares.
pub fn rows_with(
    alloc: Global,
    names: &Names,
    file: u32,
    ports: &SidePorts,
) -> Result<List<CatRow>, StageFault>
    requires file { file < length names.now.files }
    requires ports { (f : SourceFile) (c : Catalogue) → slice_get names.now.files file ≡ Some f → spec.catalogue_of f.tree ≡ Some c → sides_held ports.now ≡ sides_of names.now.types c.ports }
    ensures { (f : SourceFile) → slice_get names.now.files file ≡ Some f → AnswersBy (HasRows names.now.tables names.now.types f) (HasBadRow names.now.tables names.now.types f) result }
{
    let file = &names.files.items()[file as usize];
    match catalogue_of(&file.tree) {
        Some(catalogue) => listed_rows(alloc, names, &file.name, &catalogue, ports),
        None => Ok(List::of(Vec::new(alloc))),
    }
}

/// The rows of the file of this number, or the first of what is wrong with them, as `rows_with` has them. Its own ports
/// are worked out here.
pub fn rows_of(alloc: Global, names: &Names, file: u32) -> Result<List<CatRow>, StageFault>
    requires file { file < length names.now.files }
    requires ports { (f : SourceFile) → slice_get names.now.files file ≡ Some f → HasSoundPorts names.now.types f }
    ensures { (f : SourceFile) → slice_get names.now.files file ≡ Some f → AnswersBy (HasRows names.now.tables names.now.types f) (HasBadRow names.now.tables names.now.types f) result }
{
    file_rows(alloc, names, &names.files.items()[file as usize])
}

/// The rows of a file, or the first of what is wrong with them.
pub fn file_rows(
    alloc: Global,
    names: &Names,
    file: &SourceFile,
) -> Result<List<CatRow>, StageFault>
    requires small { IsSmall file.now.tree }
    requires ports { HasSoundPorts names.now.types file.now }
    ensures { AnswersBy (HasRows names.now.tables names.now.types file.now) (HasBadRow names.now.tables names.now.types file.now) result }
{
    match catalogue_of(&file.tree) {
        Some(catalogue) => {
            let ports = sides_of(alloc, names, catalogue.ports)?;
            listed_rows(alloc, names, &file.name, &catalogue, &ports)
        }
        None => Ok(List::of(Vec::new(alloc))),
    }
}

/// The ports that the trees write, by their sides. None of them has a fault, so only memory can be wanting.
fn sides_of(alloc: Global, names: &Names, trees: &[PortTree]) -> Result<SidePorts, NoMemory>
    requires few { length trees.now < 2 ^ 32 }
    requires sound { flat_map (port_faults (poset_place names.now.types)) trees.now ≡ [] }
    ensures { IfOk result (λ ports. sides_held ports ≡ sides_of names.now.types trees.now) }
{
    match side_ports(alloc, trees, names.posets()) {
        Ok(ports) => Ok(ports),
        Err(_) => Err(NoMemory),
    }
}

/// The rows that a catalogue of this file lists for these ports, or the first of what is wrong with them.
fn listed_rows(
    alloc: Global,
    names: &Names,
    file: &Text,
    catalogue: &CatalogueTree,
    ports: &SidePorts,
) -> Result<List<CatRow>, StageFault>
    requires provides { length ports.now.provides < 2 ^ 32 }
    requires requires_ { length ports.now.requires_ < 2 ^ 32 }
    ensures { AnswersBy (spec.AreListed names.now.tables names.now.types (sides_held ports.now) catalogue.now.rows.now (option_copied catalogue.now.table)) (spec.IsBadList names.now.tables names.now.types (sides_held ports.now) file.now catalogue.now.rows.now (option_copied catalogue.now.table)) result }
{
    match catalogue.table {
        Some(name) => named_rows(alloc, names, file, name, ports),
        None => own_rows(alloc, &names.types, file, catalogue.rows, ports),
    }
}

/// The rows that the trees in this file mean, or the first of what is wrong with them.
fn own_rows(
    alloc: Global,
    types: &Types,
    file: &Text,
    trees: &[RowTree],
    ports: &SidePorts,
) -> Result<List<CatRow>, StageFault>
    requires types { AreNamed types.now }
    ensures { AnswersBy (spec.AreMeant types.now (sides_held ports.now) trees.now) (spec.IsTreeFault types.now (sides_held ports.now) file.now trees.now) result }
{
    let provides = ports.provides.items();
    let requires_ = ports.requires_.items();
    match rows_of_trees(alloc, trees, types, provides, requires_) {
        Ok(rows) => Ok(rows),
        Err(stop) => Err(in_file(alloc, file, stop)),
    }
}

/// The rows of the table of this name, or the first of what is wrong with it.
fn named_rows(
    alloc: Global,
    names: &Names,
    file: &Text,
    name: &NameAt,
    ports: &SidePorts,
) -> Result<List<CatRow>, StageFault>
    requires provides { length ports.now.provides < 2 ^ 32 }
    requires requires_ { length ports.now.requires_ < 2 ^ 32 }
    ensures { AnswersBy (spec.AreTabled names.now.types (sides_held ports.now) (spec.table_named names.now.tables name.now.name)) (spec.IsBadTable names.now.types (sides_held ports.now) file.now name.now (spec.table_named names.now.tables name.now.name)) result }
{
    match table_named(names, name.name.as_str()) {
        Some(table) => table_rows(alloc, &names.types, table, ports),
        None => Err(in_file(
            alloc,
            file,
            Stop::At(Fault {
                kind: FaultKind::Unknown,
                at: name.at,
            }),
        )),
    }
}

/// The table of this name.
fn table_named<'a>(names: &'a Names, name: &str) -> Option<&'a Table>
    ensures { option_copied result ≡ spec.table_named names.now.tables name.now }
{
    let number = names.table(name)?;
    names.tables.get(number as usize)
}

/// The rows that the table means for these ports, or the first of what is wrong with it.
fn table_rows(
    alloc: Global,
    types: &Types,
    table: &Table,
    ports: &SidePorts,
) -> Result<List<CatRow>, StageFault>
    requires types { AreNamed types.now }
    requires provides { length ports.now.provides < 2 ^ 32 }
    requires requires_ { length ports.now.requires_ < 2 ^ 32 }
    ensures { AnswersBy (λ rows. spec.AreTabled types.now (sides_held ports.now) (Some table.now) rows) (spec.IsFaultIn types.now (sides_held ports.now) table.now) result }
{
    let columns = Columns {
        types,
        provides: ports.provides.items(),
        requires_: ports.requires_.items(),
    };
    match rows_of_table(alloc, table.bytes.items(), &columns) {
        Ok(rows) => Ok(rows),
        Err(stop) => Err(in_file(alloc, &table.name, stop)),
    }
}
