ghost use Rattle.std.specs.Prelude.{◌≡◌, ◌↔◌, IfOk, IsTrue, OnOk, find, map};
ghost use Rattle.order_core.specs.Members.{IsMember};
ghost use Rattle.std.specs.Option.{option_copied};
ghost use Rattle.std.specs.Str.{bytes_eq};
ghost use Rattle.design_world.specs.Fault.{
  FailedOnly,
  FolderRunsReliably,
  HasCause,
  MemoryOnly,
  NeverFall,
  one_more,
};
ghost use Rattle.design_world.specs.Files.{
  GivesContent,
  GivesFile,
  GivesNames,
  HasNamed,
  SameFiles,
  everywhere,
  names_of,
};
ghost use Rattle.design_world.specs.InMemory.{
  file_of,
  files_of,
  none_fail,
  told_files,
};

use super::fails::fails;
use crate::world::{Content, Folder, WorldFault};
use order_core::{List, Text};
use std::alloc::{AllocError, Global};

/// A file in memory.
#[derive(Debug, Drop)]
pub struct MemoryFile {
    pub name: Text,
    pub bytes: List<u8>,
}

/// A folder in memory, which has the same files at every place.
///
/// Calls are numbered from 0. A call whose number is in `failing` answers `Failed`. Want of memory
/// changes nothing, and is not counted as a call.
#[derive(Debug, Drop)]
pub struct MemoryFolder {
    /// The files; `read` gives the first one with the name.
    pub files: List<MemoryFile>,
    /// The numbers of the calls that fail.
    pub failing: List<u64>,
    /// How many calls were answered or failed, which is the next call's number. It stands still at
    /// the greatest `u64`.
    pub calls: u64,
    /// How many calls failed. It stands still at the greatest `u64`.
    pub failed: u64,
}

impl Folder for MemoryFolder {
    ghost files = { told_files };

    ghost faults = { λ folder. everywhere folder.failed };

    ghost is_reliable = { λ folder. none_fail folder.failing };

    fn list(&mut self, alloc: Global, _place: &str) -> Result<List<Text>, WorldFault>
        ensures same { SameFiles (told_files self.old) (told_files self.new) }
        ensures counts { NeverFall (everywhere self.old.failed) (everywhere self.new.failed) }
        ensures cause { HasCause self.old.failed self.new.failed result }
        ensures memory { MemoryOnly result (self.new ≡ self.old) }
        ensures reliable { IsTrue (none_fail self.old.failing) →
            FolderRunsReliably (none_fail self.new.failing)
            (everywhere self.old.failed) (everywhere self.new.failed) result }
        ensures names { IfOk result (λ names. GivesNames (files_of self.old.files) names) }

        ensures files { self.new.files ≡ self.old.files }
        ensures failing { (result ≡ Err WorldFault.Failed) ↔ IsMember self.old.calls self.old.failing }
        ensures failed { FailedOnly result (self.new ≡
            record self.old { calls = one_more self.old.calls; failed = one_more self.old.failed }) }
        ensures answered { OnOk result (self.new ≡
            record self.old { calls = one_more self.old.calls }) }
    {
        if fails(self.failing.items(), self.calls) {
            self.failed = self.failed.saturating_add(1);
            self.calls = self.calls.saturating_add(1);
            return Err(WorldFault::Failed);
        }
        let names = copied_names(alloc, self.files.items())?;
        self.calls = self.calls.saturating_add(1);
        Ok(names)
    }

    fn read(
        &mut self,
        alloc: Global,
        _place: &str,
        name: &Text,
        limit: u64,
    ) -> Result<Content, WorldFault>
        requires there { HasNamed (files_of self.old.files) name.now }
        ensures same { SameFiles (told_files self.old) (told_files self.new) }
        ensures counts { NeverFall (everywhere self.old.failed) (everywhere self.new.failed) }
        ensures cause { HasCause self.old.failed self.new.failed result }
        ensures memory { MemoryOnly result (self.new ≡ self.old) }
        ensures reliable { IsTrue (none_fail self.old.failing) →
            FolderRunsReliably (none_fail self.new.failing)
            (everywhere self.old.failed) (everywhere self.new.failed) result }
        ensures content { IfOk result (λ content.
            GivesContent (files_of self.old.files) name.now limit content) }

        ensures files { self.new.files ≡ self.old.files }
        ensures failing { (result ≡ Err WorldFault.Failed) ↔ IsMember self.old.calls self.old.failing }
        ensures failed { FailedOnly result (self.new ≡
            record self.old { calls = one_more self.old.calls; failed = one_more self.old.failed }) }
        ensures answered { OnOk result (self.new ≡
            record self.old { calls = one_more self.old.calls }) }
    {
        if fails(self.failing.items(), self.calls) {
            self.failed = self.failed.saturating_add(1);
            self.calls = self.calls.saturating_add(1);
            return Err(WorldFault::Failed);
        }
        let Some(file) = first_named(self.files.items(), name.as_str()) else {
            unreachable!()
        };
        let content = content_of(alloc, file, limit)?;
        self.calls = self.calls.saturating_add(1);
        Ok(content)
    }
}

fn copied_names(alloc: Global, files: &[MemoryFile]) -> Result<List<Text>, AllocError>
    ensures { IfOk result (λ names. names ≡ names_of (files_of files.now)) }
{
    let mut names = Vec::new(alloc);
    for file in files {
        let name = String::from_str(alloc, file.name.as_str())?;
        names.push(Text::of(name))?;
    }
    Ok(List::of(names))
}

fn first_named<'a>(files: &'a [MemoryFile], name: &str) -> Option<&'a MemoryFile>
    ensures { option_copied result ≡ find (λ file. bytes_eq name.now file.name) files.now }
{
    files.iter().find(|file| name == file.name.as_str())
}

fn content_of(alloc: Global, file: &MemoryFile, limit: u64) -> Result<Content, AllocError>
    ensures { IfOk result (λ content. GivesFile (Some (file_of file.now)) limit content) }
{
    let bytes = file.bytes.items();
    if bytes.len() as u64 > limit {
        return Ok(Content::Longer);
    }
    Ok(Content::Whole(List::of(Vec::from_slice(alloc, bytes)?)))
}
