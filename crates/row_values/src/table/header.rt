ghost use Rattle.std.specs.Prelude.{◌<◌, ◌^◌, length, drop};
ghost use Rattle.csv.specs.Records.{fields_of};
ghost use Rattle.row_values.specs.Cells.{Finds, IsName};
ghost use Rattle.row_values.specs.Tables.{AreNames, HeaderIs};

use crate::table::cell::name_of_cell;
use crate::value::CellFault;
use csv::ByteRecord;
use std::alloc::Global;
use value_type::Port;

/// That record 0 has the word `name` and then the names of the ports.
pub fn check_header(
    alloc: Global,
    cells: &ByteRecord,
    provides: &[Port],
    requires_: &[Port],
) -> Result<(), CellFault>
    requires provides { length provides.now < 2 ^ 32 }
    requires requires_ { length requires_.now < 2 ^ 32 }
    ensures { Finds (λ _. HeaderIs provides.now requires_.now (fields_of cells.now)) result }
{
    let Some(cell) = cells.get(0) else {
        return Err(CellFault::Bad);
    };
    match check_name(alloc, cell, "name") {
        Ok(()) => {}
        Err(fault) => return Err(fault),
    }
    match check_names(alloc, cells, 1, provides) {
        Ok(()) => {}
        Err(fault) => return Err(fault),
    }
    check_names(alloc, cells, 1 + provides.len(), requires_)
}

/// That the record's cells from this place on begin with the names of the ports.
fn check_names(
    alloc: Global,
    cells: &ByteRecord,
    from: usize,
    ports: &[Port],
) -> Result<(), CellFault>
    requires from { from < 2 ^ 33 }
    requires ports { length ports.now < 2 ^ 32 }
    ensures { Finds (λ _. AreNames ports.now (drop from (fields_of cells.now))) result }
{
    for (at, port) in ports.iter().enumerate() {
        let cell = match cells.get(from + at) {
            Some(cell) => cell,
            None => return Err(CellFault::Bad),
        };
        match check_name(alloc, cell, port.name.as_str()) {
            Ok(()) => {}
            Err(fault) => return Err(fault),
        }
    }
    Ok(())
}

/// That the cell is this name.
fn check_name(alloc: Global, cell: &[u8], name: &str) -> Result<(), CellFault>
    ensures { Finds (λ _. IsName cell.now name.now) result }
{
    match name_of_cell(alloc, cell) {
        Ok(found) => {
            if name == found.as_str() {
                Ok(())
            } else {
                Err(CellFault::Bad)
            }
        }
        Err(fault) => Err(fault),
    }
}
