ghost use Rattle.std.specs.Prelude.{◌≡◌, ◌≢◌, ℕ, Err, IfOk, IsTrue, List, filter, map};
ghost use Rattle.std.specs.List.Sorted.{IsPermutation, IsSortedBy};
ghost use Rattle.std.specs.Option.{ForSome};
ghost use Rattle.design_world.specs.Fault.{FolderRunsReliably, HasCause, NeverFall, Rose};
ghost use Rattle.design_world.specs.Files.{File, HasNamed, SameFiles, names_of};
ghost use Rattle.library_files.specs.Names.{is_recognised};
ghost use Rattle.library_files.specs.Reading.{IsRead, AreRead, file_named};
ghost use Rattle.library_files.specs.Taken.{AreLibraryNames, AreTaken, Gathers, is_before};
ghost use Rattle.order_core.specs.Pointwise.{Each};

use crate::fault::{LibraryFault, LoadFault};
use crate::name::is_recognised;
use design_world::{Content, Folder, MemoryFile, MemoryFolder, WorldFault};
use order_core::{List, Text};
use std::alloc::{AllocFailed, Global};

/// The most files of a library.
const MAX_FILES: u64 = 1_000;

/// The most bytes of a file.
const MAX_FILE: u64 = 1_048_576;

/// The most bytes of all files of a library.
const MAX_LIBRARY: u64 = 16_777_216;

/// Those of the names that are recognised.
fn recognised(alloc: Global, names: Vec<Text>) -> Result<Vec<Text>, AllocFailed<Text>>
    ensures { IfOk result (λ kept. kept.items ≡ filter is_recognised names.items) }
{
    let mut kept = Vec::new(alloc);
    for name in names {
        if is_recognised(name.as_str()) {
            kept.push(name)?;
        }
    }
    Ok(kept)
}

/// Puts names into the order of their bytes.
fn sort_names(names: &mut Vec<Text>)
    ensures permutation { IsPermutation names.old.items names.new.items }
    ensures ordered { IsSortedBy is_before names.new.items }
{
    names.sort_unstable_by(|a, b| a.as_str().cmp(b.as_str()));
}

/// The names of the files of a folder that belong to a library, in the order of their bytes.
fn library_names<F: Folder>(
    alloc: Global,
    folder: &mut F,
    place: &str,
) -> Result<Vec<Text>, WorldFault>
    ensures same { SameFiles (F.files folder.old) (F.files folder.new) }
    ensures counts { NeverFall (F.faults folder.old) (F.faults folder.new) }
    ensures cause { HasCause (F.faults folder.old place.now) (F.faults folder.new place.now) result }
    ensures reliable { IsTrue (F.is_reliable folder.old) →
        FolderRunsReliably (F.is_reliable folder.new) (F.faults folder.old) (F.faults folder.new) result }
    ensures recognised { IfOk result (λ names. Each (λ name. IsTrue (is_recognised name)) names.items) }
    ensures ordered { IfOk result (λ names. IsSortedBy is_before names.items) }
    ensures listed { IfOk result (λ names. ForSome (F.files folder.old place.now) (λ files.
        IsPermutation (filter is_recognised (names_of files)) names.items)) }
{
    let names = folder.list(alloc, place)?.into_vec();
    match recognised(alloc, names) {
        Ok(mut kept) => {
            sort_names(&mut kept);
            Ok(kept)
        }
        Err(_) => Err(WorldFault::Memory),
    }
}

/// A file of a folder, unless it is too long.
fn read_file<F: Folder>(
    alloc: Global,
    folder: &mut F,
    place: &str,
    name: Text,
) -> Result<MemoryFile, LoadFault>
    requires { ForSome (F.files folder.old place.now) (λ files. HasNamed files name) }
    ensures same { SameFiles (F.files folder.old) (F.files folder.new) }
    ensures counts { NeverFall (F.faults folder.old) (F.faults folder.new) }
    ensures cause { result ≡ Err LoadFault.Folder → Rose (F.faults folder.old place.now) (F.faults folder.new place.now) }
    ensures reliable { IsTrue (F.is_reliable folder.old) →
        IsTrue (F.is_reliable folder.new)
        × ((place : List ℕ) → F.faults folder.new place ≡ F.faults folder.old place)
        × (result ≢ Err LoadFault.Folder) }
    ensures name { IfOk result (λ file. file.name ≡ name) }
    ensures read { ForSome (F.files folder.old place.now) (λ files. IsRead (file_named files name) result) }
{
    match folder.read(alloc, place, &name, MAX_FILE)? {
        Content::Whole(bytes) => Ok(MemoryFile { name, bytes }),
        Content::Longer => Err(LoadFault::Library(LibraryFault::FileTooLong { file: name })),
    }
}

/// The files of these names, up to the first limit that they pass.
fn read_named<F: Folder>(
    alloc: Global,
    folder: &mut F,
    place: &str,
    names: Vec<Text>,
) -> Result<List<MemoryFile>, LoadFault>
    requires { ForSome (F.files folder.old place.now) (λ files. Each (HasNamed files) names.items) }
    ensures same { SameFiles (F.files folder.old) (F.files folder.new) }
    ensures counts { NeverFall (F.faults folder.old) (F.faults folder.new) }
    ensures cause { result ≡ Err LoadFault.Folder → Rose (F.faults folder.old place.now) (F.faults folder.new place.now) }
    ensures reliable { IsTrue (F.is_reliable folder.old) →
        IsTrue (F.is_reliable folder.new)
        × ((place : List ℕ) → F.faults folder.new place ≡ F.faults folder.old place)
        × (result ≢ Err LoadFault.Folder) }
    ensures names { IfOk result (λ read. map (λ file. file.name) read ≡ names.items) }
    ensures read { ForSome (F.files folder.old place.now) (λ files. AreRead (map (file_named files) names.items) result) }
{
    let mut read = Vec::new(alloc);
    let mut total = 0;
    for name in names {
        let file = match read_file(alloc, folder, place, name) {
            Ok(file) => file,
            Err(fault) => return Err(fault),
        };
        total += file.bytes.items().len() as u64;
        if total > MAX_LIBRARY {
            let file = file.name;
            return Err(LoadFault::Library(LibraryFault::LibraryTooLong { file }));
        }
        read.push(file)?;
    }
    Ok(List::of(read))
}

/// The files of a folder that belong to a library, in the byte order of their names, as a folder in memory none of whose
/// calls fails.
///
/// No file is read where there are too many, and none after the first limit that they pass. A count rose where it is
/// greater at the return than at the call, or stands at the greatest `u64`.
pub fn gather<F: Folder>(
    alloc: Global,
    folder: &mut F,
    place: &str,
) -> Result<MemoryFolder, LoadFault>
    ensures same { SameFiles (F.files folder.old) (F.files folder.new) }
    ensures counts { NeverFall (F.faults folder.old) (F.faults folder.new) }
    ensures cause { result ≡ Err LoadFault.Folder → Rose (F.faults folder.old place.now) (F.faults folder.new place.now) }
    ensures reliable { IsTrue (F.is_reliable folder.old) →
        IsTrue (F.is_reliable folder.new)
        × ((place : List ℕ) → F.faults folder.new place ≡ F.faults folder.old place)
        × (result ≢ Err LoadFault.Folder) }
    ensures names { IfOk result (λ folder. AreLibraryNames (map (λ file. file.name) folder.files)) }
    ensures gathered { ForSome (F.files folder.old place.now) (λ files.
        (taken : List File) × AreTaken files taken × Gathers taken result) }
{
    let names = match library_names(alloc, folder, place) {
        Ok(names) => names,
        Err(WorldFault::Failed) => return Err(LoadFault::Folder),
        Err(WorldFault::Memory) => return Err(LoadFault::Memory),
    };
    let count = names.len() as u64;
    if count > MAX_FILES {
        return Err(LoadFault::Library(LibraryFault::TooManyFiles { count }));
    }
    let files = match read_named(alloc, folder, place, names) {
        Ok(files) => files,
        Err(fault) => return Err(fault),
    };
    Ok(MemoryFolder {
        files,
        failing: List::of(Vec::new(alloc)),
        calls: 0,
        failed: 0,
    })
}
