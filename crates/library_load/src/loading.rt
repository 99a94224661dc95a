ghost use Rattle.std.specs.Prelude.{◌≡◌, ◌≢◌, ◌<◌, ◌^◌, ℕ, Err, IfOk, IsTrue, List, map};
ghost use Rattle.std.specs.Option.{ForSome};
ghost use Rattle.design_world.specs.Fault.{NeverFall, Rose};
ghost use Rattle.design_world.specs.Files.{SameFiles};
ghost use Rattle.fault_list.specs.FirstBad.{AnswersBy};
ghost use Rattle.library_files.specs.Taken.{AreLibraryNames};
ghost use Rattle.library_load.specs.Loaded.{IsFaultOf, IsLibrary, Loads};
ghost use Rattle.library_load.specs.Stages.{IsLoadedOf};

use crate::library::Library;
use crate::stages::library_of;
use design_world::{Folder, MemoryFile};
use fault_list::{StageFault, Stop};
use library_files::{LibraryFault, LoadFault, gather, parsed_choices_have_branches, read_files};
use order_core::List;
use std::alloc::Global;

/// The library that the files of a folder write, or why they are refused: the first limit that they pass, or else the first
/// fault of the stages.
///
/// The stages are texts, names, types, connection, rows, references and the limits of designs. All files are read before one
/// is judged. A count rose where it is greater at the return than at the call, or stands at the greatest `u64`.
pub fn load<F: Folder>(alloc: Global, folder: &mut F, place: &str) -> Result<Library, LoadFault>
    ensures same { SameFiles (F.files folder.old) (F.files folder.new) }
    ensures counts { NeverFall (F.faults folder.old) (F.faults folder.new) }
    ensures cause { result ≡ Err LoadFault.Folder → Rose (F.faults folder.old place.now) (F.faults folder.new place.now) }
    ensures reliable { IsTrue (F.is_reliable folder.old) →
        IsTrue (F.is_reliable folder.new)
        × ((place : List ℕ) → F.faults folder.new place ≡ F.faults folder.old place)
        × (result ≢ Err LoadFault.Folder) }
    ensures library { IfOk result IsLibrary }
    ensures loaded { ForSome (F.files folder.old place.now) (λ files. Loads files result) }
{
    let gathered = match gather(alloc, folder, place) {
        Ok(gathered) => gathered,
        Err(fault) => return Err(fault),
    };
    match library_in(alloc, gathered.files) {
        Ok(library) => Ok(library),
        Err(Stop::At(fault)) => Err(LoadFault::Library(LibraryFault::Refused(fault))),
        Err(Stop::Memory) => Err(LoadFault::Memory),
    }
}

/// The library that files write, or the first fault of the stages.
fn library_in(alloc: Global, files: List<MemoryFile>) -> Result<Library, StageFault>
    requires { AreLibraryNames (map (λ file. file.name) files) }
    ensures { AnswersBy (IsLoadedOf files) (IsFaultOf files) result }
{
    parsed_choices_have_branches();
    let parsed = read_files(alloc, files)?;
    library_of(alloc, parsed.files, parsed.tables)
}
