ghost use Rattle.std.specs.Prelude.{◌≡◌, ◌<◌, ◌^◌, ℕ, List, IfOk, Some, is_some, length};
ghost use Rattle.fault_list.specs.Answers.{Answers};
ghost use Rattle.name_index.specs.Names.{number_of};
ghost use Rattle.name_rules.specs.Sizes.{IsSmall};
ghost use Rattle.name_rules.specs.Twice.{is_listed};
ghost use Rattle.name_table.specs.Files.{elements_of, known_in};
ghost use Rattle.name_table.specs.Library.{AreSmall};
ghost use Rattle.name_table.specs.Listing.{listing_faults};
ghost use Rattle.name_table.specs.Stems.{AreElementsOf, AreStems, AreTableStems, has_element, known_by};
ghost use Rattle.order_core.specs.Pointwise.{Pointwise};

use crate::source::{SourceFile, Table};
use crate::stems::{FileStems, stems_of};
use design_lexer::File;
use fault_list::StageFault;
use name_index::NameIndex;
use name_rules::{Library, places_of};
use order_core::{List, NoMemory};
use std::alloc::Global;

/// What files may name: the stems of a library, and the elements of its posets.
#[derive(Drop)]
pub struct LibraryNames {
    pub stems: FileStems,
    pub tables: NameIndex,
    /// By the number of a file, the elements that it has as a poset.
    pub elements: List<NameIndex>,
}

impl Library for LibraryNames {
    ghost known = { known_by };

    fn has_design(&self, name: &str) -> bool {
        self.stems.designs.get(name).is_some()
    }

    fn has_interface(&self, name: &str) -> bool {
        self.stems.interfaces.get(name).is_some()
    }

    fn has_table(&self, name: &str) -> bool {
        self.tables.get(name).is_some()
    }

    fn has_poset(&self, name: &str) -> bool {
        self.stems.posets.get(name).is_some()
    }

    fn has_element(&self, poset: &str, element: &str) -> bool {
        match self.stems.posets.get(poset) {
            Some(number) => is_element(self.elements.items(), number, element),
            None => false,
        }
    }
}

/// Whether the index of this number has the name.
fn is_element(elements: &[NameIndex], number: u32, name: &str) -> bool
    ensures { result ≡ has_element elements.now (Some number) name.now }
{
    match elements.get(number as usize) {
        Some(names) => names.get(name).is_some(),
        None => false,
    }
}

/// The names of the files and tables, or the first file that is listed twice.
pub fn library_names(
    alloc: Global,
    files: &[SourceFile],
    tables: &[Table],
) -> Result<LibraryNames, StageFault>
    requires few_files { length files.now < 2 ^ 32 }
    requires few_tables { length tables.now < 2 ^ 32 }
    requires small { AreSmall files.now }
    ensures { Answers (listing_faults files.now tables.now) (λ made. AreStems files.now made.stems × AreTableStems tables.now made.tables × (known_by made ≡ known_in files.now tables.now)) result }
{
    let (stems, table_stems) = stems_of(alloc, files, tables)?;
    let elements = elements_of(alloc, files)?;
    Ok(LibraryNames {
        stems,
        tables: table_stems,
        elements,
    })
}

/// For each file the elements that it has as a poset.
fn elements_of(alloc: Global, files: &[SourceFile]) -> Result<List<NameIndex>, NoMemory>
    requires small { AreSmall files.now }
    ensures { IfOk result (λ made. Pointwise AreElementsOf files.now made) }
{
    let mut elements = Vec::new(alloc);
    for file in files {
        let names = file_elements(alloc, &file.tree)?;
        elements.push(names)?;
    }
    Ok(List::of(elements))
}

/// The elements of a poset. Other files have none.
fn file_elements(alloc: Global, tree: &File) -> Result<NameIndex, NoMemory>
    requires small { IsSmall tree.now }
    ensures { IfOk result (λ names. (name : List ℕ) → is_some (number_of names name) ≡ is_listed (elements_of tree.now) name) }
{
    match tree {
        File::Poset(poset) => places_of(alloc, poset.elements.items()),
        _ => Ok(NameIndex::new(alloc)),
    }
}
