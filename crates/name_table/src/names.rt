ghost use Rattle.std.specs.Prelude.{◌≡◌, ◌<◌, ◌^◌, ℕ, List, length, slice_index};
ghost use Rattle.fault_list.specs.Answers.{Answers};
ghost use Rattle.name_index.specs.Names.{number_of};
ghost use Rattle.name_table.specs.Files.{is_design, is_interface, stem_place, table_place};
ghost use Rattle.name_table.specs.Library.{AreIndexed, AreInOrder, ArePosets, AreSmall};
ghost use Rattle.tree_units.specs.Posets.{poset_place};
ghost use Rattle.name_table.specs.NameFaults.{name_faults};
ghost use Rattle.value_type.specs.Types.{AreNamed};

use crate::examine::examine;
use crate::library::LibraryNames;
use crate::source::{SourceFile, Table};
use fault_list::StageFault;
use name_index::NameIndex;
use order_core::List;
use std::alloc::Global;
use value_type::Types;

/// The files, tables and posets of a library whose names are in order.
///
/// Each name is found in its space, however many there are.
#[derive(Drop)]
pub struct Names {
    /// The files that aren't tables, in the byte order of their names.
    pub files: List<SourceFile>,
    /// The tables, in the byte order of their names.
    pub tables: List<Table>,
    /// The posets of the poset files, in the byte order of their names.
    pub types: Types,
    library: LibraryNames,
    pub(crate) posets: NameIndex,
    ranks: List<u32>,
    pub ghost in_order: { AreInOrder files tables },
    pub ghost small: { ∥ AreSmall files ∥₁ },
    pub ghost posets_are: { ∥ ArePosets files types.posets ∥₁ },
    pub ghost named: { AreNamed types },
    pub ghost indexed: { AreIndexed files tables types library posets ranks },
}

impl Names {
    /// The number of the design or template of this name among the files.
    pub fn design(&self, stem: &str) -> Option<u32>
        ensures { result ≡ stem_place is_design self.now.files stem.now }
    {
        self.library.stems.designs.get(stem)
    }

    /// The number of the interface of this name among the files.
    pub fn interface(&self, stem: &str) -> Option<u32>
        ensures { result ≡ stem_place is_interface self.now.files stem.now }
    {
        self.library.stems.interfaces.get(stem)
    }

    /// The number of the poset of this name among the posets of the types.
    pub fn poset(&self, stem: &str) -> Option<u32>
        ensures { result ≡ poset_place self.now.types stem.now }
    {
        self.posets.get(stem)
    }

    /// The names of the posets, with their numbers among the posets of the types.
    pub fn posets(&self) -> &NameIndex
        ensures { (name : List ℕ) → number_of result.now name ≡ poset_place self.now.types name }
    {
        &self.posets
    }

    /// The number of the table of this name among the tables.
    pub fn table(&self, stem: &str) -> Option<u32>
        ensures { result ≡ table_place self.now.tables stem.now }
    {
        self.library.tables.get(stem)
    }

    /// The rank of a file: it is lower for each file that this one refers to.
    pub fn rank(&self, file: u32) -> u32
        ensures { result ≡ slice_index self.now.ranks file }
    {
        match self.ranks.get(file as usize) {
            Some(rank) => *rank,
            None => 0,
        }
    }
}

/// The names of a library, or the first of what is wrong with them.
///
/// First come the files that are listed twice, in the byte order of their names, at the start of the later one.
/// Then, file by file, the names that stand twice or lead nowhere, by their places, and a poset without elements,
/// with more than 64, or whose chains make no order. Then the files from which a chain of references comes back.
pub fn build(
    alloc: Global,
    files: List<SourceFile>,
    tables: List<Table>,
) -> Result<Names, StageFault>
    requires few_files { length files < 2 ^ 32 }
    requires few_tables { length tables < 2 ^ 32 }
    requires small { AreSmall files }
    ensures { Answers (name_faults files tables) (λ names. (names.files ≡ files) × (names.tables ≡ tables) × ArePosets files names.types.posets) result }
{
    let found = examine(alloc, files.items(), tables.items())?;
    Ok(Names {
        files,
        tables,
        types: found.types,
        library: found.library,
        posets: found.posets,
        ranks: found.ranks,
    })
}
