ghost use Rattle.std.specs.Prelude.{◌≡◌, ◌<◌, ◌+◌, ◌^◌, length, drop};
ghost use Rattle.csv.specs.Records.{fields_of};
ghost use Rattle.value_type.specs.Types.{AreNamed};
ghost use Rattle.row_values.specs.Cells.{Finds};
ghost use Rattle.row_values.specs.Tables as spec;

use crate::table::cell::{name_of_cell, value_of_cell};
use crate::value::{CellFault, Rounding};
use csv::ByteRecord;
use design_model::CatRow;
use order_core::List;
use std::alloc::Global;
use value_type::{Port, Row, Types};

/// The row that the record means.
pub fn row_of_record(
    alloc: Global,
    cells: &ByteRecord,
    types: &Types,
    provides: &[Port],
    requires_: &[Port],
) -> Result<CatRow, CellFault>
    requires types { AreNamed types.now }
    requires provides { length provides.now < 2 ^ 32 }
    requires requires_ { length requires_.now < 2 ^ 32 }
    ensures { Finds (spec.RecordIs types.now provides.now requires_.now (fields_of cells.now)) result }
{
    let Some(cell) = cells.get(0) else {
        return Err(CellFault::Bad);
    };
    let name = match name_of_cell(alloc, cell) {
        Ok(name) => name,
        Err(fault) => return Err(fault),
    };
    let provided = match cells_of_record(alloc, cells, 1, types, provides, Rounding::Down) {
        Ok(provided) => provided,
        Err(fault) => return Err(fault),
    };
    let from = 1 + provides.len();
    let required = match cells_of_record(alloc, cells, from, types, requires_, Rounding::Up) {
        Ok(required) => required,
        Err(fault) => return Err(fault),
    };
    Ok(CatRow {
        name,
        provided,
        required,
    })
}

/// The values of the ports that the record's cells from this place on mean.
fn cells_of_record(
    alloc: Global,
    cells: &ByteRecord,
    from: usize,
    types: &Types,
    ports: &[Port],
    rounding: Rounding,
) -> Result<Row, CellFault>
    requires types { AreNamed types.now }
    requires from { from < 2 ^ 33 }
    requires ports { length ports.now < 2 ^ 32 }
    ensures { Finds (spec.CellsAre types.now rounding ports.now (drop from (fields_of cells.now))) result }
{
    let mut values = Vec::new(alloc);
    for (at, port) in ports.iter().enumerate() {
        let cell = match cells.get(from + at) {
            Some(cell) => cell,
            None => return Err(CellFault::Bad),
        };
        let value = match value_of_cell(alloc, cell, types, &port.kind, rounding) {
            Ok(value) => value,
            Err(fault) => return Err(fault),
        };
        values.push(value)?;
    }
    values.shrink_to_fit();
    let row = Row::of(alloc, List::of(values))?;
    Ok(row)
}
