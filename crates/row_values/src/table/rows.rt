ghost use Rattle.std.specs.Prelude.{◌≡◌, ◌<◌, ◌∷◌, ◌++◌, ◌^◌, [], List, IfOk, length};
ghost use Rattle.csv.specs.Records.{fields_of};
ghost use Rattle.fault_list.specs.declared.fault.Stop.TheVariants.{At};
ghost use Rattle.row_values.specs.Reading.{IsKept, Judged, SoFar};
ghost use Rattle.row_values.specs.Streams.{Reads};
ghost use Rattle.row_values.specs.Tables.{AnswersTable, FirstBad, IsHeader, Record, is_wide};
ghost use Rattle.row_values.specs.declared.table.kept.Header.TheVariants.{Good};
ghost use Rattle.value_type.specs.Types.{AreNamed};

use crate::table::header::check_header;
use crate::table::kept::{Columns, Header, KeptRows};
use crate::table::record::row_of_record;
use crate::table::stream::read_table;
use crate::value::CellFault;
use csv::ByteRecord;
use design_model::CatRow;
use fault_list::{Fault, FaultKind, Stop};
use name_index::NameIndex;
use order_core::{List, NoMemory};
use std::alloc::Global;
use value_type::Port;

/// The rows that the table means for these columns, or the first of what is wrong with it.
///
/// `NoRows` at 0 where no record follows record 0. Otherwise, at the number of the first record that is bad, `RowWidth`
/// where it hasn't one cell for a name and one for each port, or else `BadCell`: a wrong cell of record 0, a row's name
/// that isn't one name or was there before, a cell that isn't one value of its port.
pub fn rows_of_table(
    alloc: Global,
    bytes: &[u8],
    columns: &Columns,
) -> Result<List<CatRow>, Stop<Fault>>
    requires types { AreNamed columns.now.types.now }
    requires provides { length columns.now.provides.now < 2 ^ 32 }
    requires requires_ { length columns.now.requires_.now < 2 ^ 32 }
    ensures { AnswersTable columns.now.types.now columns.now.provides.now columns.now.requires_.now bytes.now result }
{
    let mut kept = KeptRows {
        header: Header::Missing,
        rows: Vec::new(alloc),
        names: NameIndex::new(alloc),
    };
    match read_table(alloc, bytes, columns, &mut kept) {
        Ok(()) => rows_kept(kept.rows),
        Err(stop) => Err(stop),
    }
}

/// The rows, if there are some.
fn rows_kept(mut rows: Vec<CatRow>) -> Result<List<CatRow>, Stop<Fault>>
    ensures { IsKept rows.items result }
{
    if rows.is_empty() {
        return Err(Stop::At(Fault {
            kind: FaultKind::NoRows,
            at: 0,
        }));
    }
    rows.shrink_to_fit();
    Ok(List::of(rows))
}

/// Keeps what one record more means, or answers what is wrong with it after those before.
pub fn read_record(
    alloc: Global,
    cells: &ByteRecord,
    columns: &Columns,
    kept: &mut KeptRows,
) -> Result<(), Stop<Fault>>
    requires types { AreNamed columns.now.types.now }
    requires provides { length columns.now.provides.now < 2 ^ 32 }
    requires requires_ { length columns.now.requires_.now < 2 ^ 32 }
    ensures { (records : List Record) → SoFar columns.now.types.now columns.now.provides.now columns.now.requires_.now records kept.old → Reads (SoFar columns.now.types.now columns.now.provides.now columns.now.requires_.now) (FirstBad columns.now.types.now columns.now.provides.now columns.now.requires_.now) (records ++ fields_of cells.now ∷ []) kept.new result }
{
    match kept.header {
        Header::Missing => {
            kept.header = judged(alloc, cells, columns)?;
            Ok(())
        }
        Header::Bad(kind) => Err(Stop::At(Fault { kind, at: 0 })),
        Header::Good => read_row(alloc, cells, columns, kept),
    }
}

/// What record 0 is.
fn judged(alloc: Global, cells: &ByteRecord, columns: &Columns) -> Result<Header, NoMemory>
    requires provides { length columns.now.provides.now < 2 ^ 32 }
    requires requires_ { length columns.now.requires_.now < 2 ^ 32 }
    ensures { IfOk result (Judged columns.now.provides.now columns.now.requires_.now (fields_of cells.now) []) }
{
    if !is_wide(cells, columns.provides, columns.requires_) {
        return Ok(Header::Bad(FaultKind::RowWidth));
    }
    match check_header(alloc, cells, columns.provides, columns.requires_) {
        Ok(()) => Ok(Header::Good),
        Err(CellFault::Bad) => Ok(Header::Bad(FaultKind::BadCell)),
        Err(CellFault::Memory) => Err(NoMemory),
    }
}

/// Whether the record has one cell for a name and one for each port.
fn is_wide(cells: &ByteRecord, provides: &[Port], requires_: &[Port]) -> bool
    requires provides { length provides.now < 2 ^ 32 }
    requires requires_ { length requires_.now < 2 ^ 32 }
    ensures { result ≡ is_wide provides.now requires_.now (fields_of cells.now) }
{
    cells.len() == 1 + provides.len() + requires_.len()
}

/// Keeps the row that a record after record 0 means.
fn read_row(
    alloc: Global,
    cells: &ByteRecord,
    columns: &Columns,
    kept: &mut KeptRows,
) -> Result<(), Stop<Fault>>
    requires types { AreNamed columns.now.types.now }
    requires provides { length columns.now.provides.now < 2 ^ 32 }
    requires requires_ { length columns.now.requires_.now < 2 ^ 32 }
    requires header { kept.old.header ≡ Good }
    ensures { (header : Record) (records : List Record) → SoFar columns.now.types.now columns.now.provides.now columns.now.requires_.now (header ∷ records) kept.old → Reads (SoFar columns.now.types.now columns.now.provides.now columns.now.requires_.now) (FirstBad columns.now.types.now columns.now.provides.now columns.now.requires_.now) (header ∷ records ++ fields_of cells.now ∷ []) kept.new result }
{
    let at = kept.rows.len() as u64 + 1;
    if !is_wide(cells, columns.provides, columns.requires_) {
        return Err(bad_record(FaultKind::RowWidth, at));
    }
    let row = match row_of_record(
        alloc,
        cells,
        columns.types,
        columns.provides,
        columns.requires_,
    ) {
        Ok(row) => row,
        Err(CellFault::Bad) => return Err(bad_record(FaultKind::BadCell, at)),
        Err(CellFault::Memory) => return Err(Stop::Memory),
    };
    if kept.names.add(alloc, row.name.as_str(), 0)?.is_some() {
        return Err(bad_record(FaultKind::BadCell, at));
    }
    kept.rows.push(row)?;
    Ok(())
}

fn bad_record(kind: FaultKind, at: u64) -> Stop<Fault>
    ensures { result ≡ At (record { kind = kind; at = at }) }
{
    Stop::At(Fault { kind, at })
}
