ghost use Rattle.catalogue_read.specs.Catalogues.{HasBadRow, HasRows, HasSomeRows, HasSoundPorts};
ghost use Rattle.fault_list.specs.FirstBad.{AnswersFirst};
ghost use Rattle.order_core.specs.Pointwise.{Each, Pointwise};

use crate::rows::file_rows;
use design_model::CatRow;
use fault_list::StageFault;
use name_table::Names;
use order_core::List;
use std::alloc::Global;

/// The rows of all files of a library, or the first of what is wrong with the rows of its catalogues, file by file.
///
/// Of a catalogue's own rows `NoRows`, `RowWidth` or `BadCell` in its file, and of a table that it names the same in the
/// table's file, at the number of the record.
pub fn library_rows(alloc: Global, names: &Names) -> Result<List<List<CatRow>>, StageFault>
    requires ports { Each (HasSoundPorts names.now.types) names.now.files }
    ensures { AnswersFirst (HasSomeRows names.now.tables names.now.types) (HasBadRow names.now.tables names.now.types) names.now.files (Pointwise (HasRows names.now.tables names.now.types) names.now.files) result }
{
    let mut made = Vec::new(alloc);
    for file in names.files.items() {
        match file_rows(alloc, names, file) {
            Ok(rows) => made.push(rows)?,
            Err(stop) => return Err(stop),
        }
    }
    Ok(List::of(made))
}

/// The first of what is wrong with the rows of a library's catalogues, as `library_rows` has it.
pub fn check_rows(alloc: Global, names: &Names) -> Result<(), StageFault>
    requires ports { Each (HasSoundPorts names.now.types) names.now.files }
    ensures { AnswersFirst (HasSomeRows names.now.tables names.now.types) (HasBadRow names.now.tables names.now.types) names.now.files (λ _. Unit {0}) result }
{
    match library_rows(alloc, names) {
        Ok(_) => Ok(()),
        Err(stop) => Err(stop),
    }
}
