ghost use Rattle.std.specs.Prelude.{◌<◌, ◌^◌, [], length};
ghost use Rattle.row_values.specs.Reading.{SoFar};
ghost use Rattle.row_values.specs.Streams.{ReadsAll};
ghost use Rattle.row_values.specs.Tables.{FirstBad};
ghost use Rattle.value_type.specs.Types.{AreNamed};

use crate::table::kept::{Columns, KeptRows};
use crate::table::rows::read_record;
use csv::ReaderBuilder;
use fault_list::{Fault, Stop};
use std::alloc::Global;

/// Reads the records of the table one by one, up to the first one that is bad.
///
/// A record is kept only until the next one comes.
pub fn read_table(
    alloc: Global,
    bytes: &[u8],
    columns: &Columns,
    kept: &mut KeptRows,
) -> Result<(), Stop<Fault>>
    requires types { AreNamed columns.now.types.now }
    requires provides { length columns.now.provides.now < 2 ^ 32 }
    requires requires_ { length columns.now.requires_.now < 2 ^ 32 }
    requires kept { SoFar columns.now.types.now columns.now.provides.now columns.now.requires_.now [] kept.old }
    ensures { ReadsAll (SoFar columns.now.types.now columns.now.provides.now columns.now.requires_.now) (FirstBad columns.now.types.now columns.now.provides.now columns.now.requires_.now) bytes.now kept.new result }
{
    let records = ReaderBuilder::new()
        .has_headers(false)
        .flexible(true)
        .from_reader(alloc, bytes);
    for cells in records.into_byte_records() {
        match cells {
            Ok(cells) => match read_record(alloc, &cells, columns, kept) {
                Ok(()) => {}
                Err(stop) => return Err(stop),
            },
            Err(_) => return Err(Stop::Memory),
        }
    }
    Ok(())
}
