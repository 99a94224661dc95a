ghost use Rattle.std.specs.Prelude.{◌≡◌, ◌<◌, ◌^◌, ℕ, List, length};
ghost use Rattle.fault_list.specs.Answers.{Answers};
ghost use Rattle.name_index.specs.Names.{number_of};
ghost use Rattle.name_table.specs.Files.{is_design, stem_place};
ghost use Rattle.name_table.specs.Found.{AreFound};
ghost use Rattle.name_table.specs.Library.{AreSmall};
ghost use Rattle.name_table.specs.NameFaults.{name_faults};
ghost use Rattle.name_table.specs.Ranks.{AreRanks};
ghost use Rattle.name_table.specs.References as refs;

use crate::library::{LibraryNames, library_names};
use crate::posets::{poset_names, posets_of};
use crate::ranks::ranks_of;
use crate::references::references;
use crate::source::{SourceFile, Table};
use fault_list::StageFault;
use name_index::NameIndex;
use order_core::List;
use std::alloc::Global;
use value_type::Types;

/// What is found in a library whose names are in order.
#[derive(Drop)]
pub struct Found {
    pub library: LibraryNames,
    pub types: Types,
    /// The names of the posets.
    pub posets: NameIndex,
    pub ranks: List<u32>,
}

/// What the files and tables have, or the first of what is wrong with their names.
pub fn examine(alloc: Global, files: &[SourceFile], tables: &[Table]) -> Result<Found, StageFault>
    requires few_files { length files.now < 2 ^ 32 }
    requires few_tables { length tables.now < 2 ^ 32 }
    requires small { AreSmall files.now }
    ensures { Answers (name_faults files.now tables.now) (AreFound files.now tables.now) result }
{
    let library = library_names(alloc, files, tables)?;
    let posets = posets_of(alloc, &library, files)?;
    let names = poset_names(alloc, posets.items())?;
    let ranks = file_ranks(alloc, &library.stems.designs, files)?;
    Ok(Found {
        library,
        types: Types { posets },
        posets: names,
        ranks,
    })
}

/// The ranks of the files, or the first one from which a chain of references comes back.
fn file_ranks(
    alloc: Global,
    designs: &NameIndex,
    files: &[SourceFile],
) -> Result<List<u32>, StageFault>
    requires few { length files.now < 2 ^ 32 }
    requires designs { (stem : List ℕ) → number_of designs.now stem ≡ stem_place is_design files.now stem }
    ensures { Answers (refs.circular_faults files.now) (AreRanks (length files.now) (refs.references files.now)) result }
{
    let pairs = references(alloc, designs, files)?;
    ranks_of(alloc, files, pairs.as_slice())
}
