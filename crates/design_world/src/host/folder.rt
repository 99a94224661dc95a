ghost use Rattle.std.specs.Prelude.{◌≡◌, IfOk, IsTrue, OnOk};
ghost use Rattle.std.specs.Option.{ForSome};
ghost use Rattle.design_world.specs.Fault.{
  FailedOnly,
  FolderRunsReliably,
  HasCause,
  MemoryOnly,
  NeverFall,
  one_more,
};
ghost use Rattle.design_world.specs.Files.{GivesContent, GivesNames, SameFiles, everywhere};

use crate::world::{Content, Folder, WorldFault};
use order_core::{List, Text};
use std::alloc::Global;
use std::fs;
use std::io::{self, ErrorKind, Read};
use std::rt::Files;

/// The folders of the system; a place is a path.
#[derive(Drop)]
pub struct HostFolder<'a, R: Files + AllocGlobal> {
    /// What reaches the system.
    pub rt: &'a R,
    /// How many calls failed. It stands still at the greatest `u64`.
    pub failed: u64,
}

impl<'a, R: Files + AllocGlobal + Clone + Drop> Folder for HostFolder<'a, R> {
    ghost use Rattle.std.specs.Prelude.{None, false};

    ghost files = { λ folder. everywhere None };

    ghost faults = { λ folder. everywhere folder.failed };

    ghost is_reliable = { λ folder. false };

    /// The names of the entries of the folder `place` that are not folders themselves, in the
    /// system's order. A link is listed, also one to a folder.
    ///
    /// It is a fault if the folder can't be listed, or a name in it is not UTF-8.
    fn list(&mut self, alloc: Global, place: &str) -> Result<List<Text>, WorldFault>
        ensures same { SameFiles (everywhere None) (everywhere None) }
        ensures counts { NeverFall (everywhere self.old.failed) (everywhere self.new.failed) }
        ensures cause { HasCause self.old.failed self.new.failed result }
        ensures memory { MemoryOnly result (self.new ≡ self.old) }
        ensures reliable { IsTrue false →
            FolderRunsReliably false (everywhere self.old.failed) (everywhere self.new.failed) result }
        ensures names { IfOk result (λ names. ForSome None (λ files. GivesNames files names)) }

        ensures failed { FailedOnly result (self.new ≡
            record self.old { failed = one_more self.old.failed }) }
        ensures answered { OnOk result (self.new ≡ self.old) }
    {
        counted(&mut self.failed, listed(self.rt, alloc, place))
    }

    /// It is a fault if the file can't be opened or read. No more than one byte past the limit is
    /// read.
    fn read(
        &mut self,
        alloc: Global,
        place: &str,
        name: &Text,
        limit: u64,
    ) -> Result<Content, WorldFault>
        ensures same { SameFiles (everywhere None) (everywhere None) }
        ensures counts { NeverFall (everywhere self.old.failed) (everywhere self.new.failed) }
        ensures cause { HasCause self.old.failed self.new.failed result }
        ensures memory { MemoryOnly result (self.new ≡ self.old) }
        ensures reliable { IsTrue false →
            FolderRunsReliably false (everywhere self.old.failed) (everywhere self.new.failed) result }
        ensures content { IfOk result (λ content.
            ForSome None (λ files. GivesContent files name.now limit content)) }

        ensures failed { FailedOnly result (self.new ≡
            record self.old { failed = one_more self.old.failed }) }
        ensures answered { OnOk result (self.new ≡ self.old) }
    {
        let answer = content_of(self.rt, alloc, place, name.as_str(), limit);
        counted(&mut self.failed, answer)
    }
}

fn listed<R: Files + AllocGlobal + Clone + Drop>(
    rt: &R,
    alloc: Global,
    place: &str,
) -> io::Result<List<Text>> {
    let mut names = Vec::new(alloc);
    for entry in fs::read_dir(rt, place)? {
        let entry = entry?;
        if !entry.file_type()?.is_dir() {
            names.push(Text::of(String::from_str(alloc, entry.file_name())?))?;
        }
    }
    Ok(List::of(names))
}

fn content_of<R: Files>(
    rt: &R,
    alloc: Global,
    place: &str,
    name: &str,
    limit: u64,
) -> io::Result<Content> {
    let path = format!(in alloc; "{place}/{name}")?;
    let mut bytes = Vec::new(alloc);
    let mut file = fs::open(rt, path.as_str())?.take(limit.saturating_add(1));
    file.read_to_end(&mut bytes)?;
    if bytes.len() as u64 > limit {
        return Ok(Content::Longer);
    }
    Ok(Content::Whole(List::of(bytes)))
}

/// The answer, with an error as the fault that it is, counted where it is not want of memory.
fn counted<T>(failed: &mut u64, answer: io::Result<T>) -> Result<T, WorldFault>
    ensures cause { HasCause failed.old failed.new result }
    ensures answered { IfOk result (λ value. answer ≡ Ok value) }
    ensures unchanged { OnOk result (failed.new ≡ failed.old) }
    ensures memory { MemoryOnly result (failed.new ≡ failed.old) }
    ensures failed { FailedOnly result (failed.new ≡ one_more failed.old) }
{
    match answer {
        Ok(value) => Ok(value),
        Err(error) if error.kind() == ErrorKind::OutOfMemory => Err(WorldFault::Memory),
        Err(_) => {
            *failed = failed.saturating_add(1);
            Err(WorldFault::Failed)
        }
    }
}
