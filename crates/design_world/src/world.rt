ghost use Rattle.std.specs.Prelude.{◌≡◌, ℕ, ◌<◌, ◌≤◌, List, Option, Bool, IsTrue, IfOk, length};
ghost use Rattle.std.specs.Option.{ForSome};
ghost use Rattle.design_world.specs.Bytes.{Appends, Takes};
ghost use Rattle.design_world.specs.Fault.{
  FolderRunsReliably,
  HasCause,
  MemoryOnly,
  NeverFall,
  RunsReliably,
};
ghost use Rattle.design_world.specs.Files.{
  File,
  GivesContent,
  GivesNames,
  HasNamed,
  SameFiles,
};

use order_core::{List, Text};
use std::alloc::{AllocError, Global};

/// Why a call on the outside world gave nothing.
#[derive(Clone, Copy, Debug, PartialEq, Eq)]
pub enum WorldFault {
    /// The outside failed, and the object counted it.
    Failed,
    /// Memory was wanting, and nothing was changed.
    Memory,
}

impl From<AllocError> for WorldFault {
    ghost use Rattle.design_world.specs.declared.world.WorldFault.TheVariants.{Memory};

    ghost from_gives = { λ _ fault. fault ≡ Memory };

    fn from(_error: AllocError) -> WorldFault {
        WorldFault::Memory
    }
}

/// A file's bytes, or that there are more of them than was asked for.
#[derive(Debug, Drop)]
pub enum Content {
    /// All of the bytes.
    Whole(List<u8>),
    /// There are more bytes than the limit.
    Longer,
}

/// Files at places. What a folder does not tell of a place is `None`.
pub trait Folder {
    /// The files at each place, where told.
    ghost files: { Self → List ℕ → Option (List File) };

    /// How many calls have failed at each place.
    ghost faults: { Self → List ℕ → ℕ };

    /// Whether no call fails from now on.
    ghost is_reliable: { Self → Bool };

    /// The names of the files at the place, in order.
    fn list(&mut self, alloc: Global, place: &str) -> Result<List<Text>, WorldFault>
        ensures same { SameFiles (files self.old) (files self.new) }
        ensures counts { NeverFall (faults self.old) (faults self.new) }
        ensures cause { HasCause (faults self.old place.now) (faults self.new place.now) result }
        ensures memory { MemoryOnly result (self.new ≡ self.old) }
        ensures reliable { IsTrue (is_reliable self.old) →
            FolderRunsReliably (is_reliable self.new) (faults self.old) (faults self.new) result }
        ensures names { IfOk result (λ names.
            ForSome (files self.old place.now) (λ files. GivesNames files names)) };

    /// The bytes of the first file at the place with this name, or that they are more than the
    /// limit.
    fn read(
        &mut self,
        alloc: Global,
        place: &str,
        name: &Text,
        limit: u64,
    ) -> Result<Content, WorldFault>
        requires there { ForSome (files self.old place.now) (λ files. HasNamed files name.now) }
        ensures same { SameFiles (files self.old) (files self.new) }
        ensures counts { NeverFall (faults self.old) (faults self.new) }
        ensures cause { HasCause (faults self.old place.now) (faults self.new place.now) result }
        ensures memory { MemoryOnly result (self.new ≡ self.old) }
        ensures reliable { IsTrue (is_reliable self.old) →
            FolderRunsReliably (is_reliable self.new) (faults self.old) (faults self.new) result }
        ensures content { IfOk result (λ content.
            ForSome (files self.old place.now) (λ files. GivesContent files name.now limit content)) };
}

/// Where bytes are taken from, in order.
pub trait Source {
    /// The bytes that are left, where told.
    ghost left: { Self → Option (List ℕ) };

    /// How many calls have failed.
    ghost faults: { Self → ℕ };

    /// Whether no call fails from now on.
    ghost is_reliable: { Self → Bool };

    /// The next bytes, at most `limit`, and none only at the end.
    fn take(&mut self, alloc: Global, limit: u64) -> Result<List<u8>, WorldFault>
        requires { 1 ≤ limit }
        ensures count { IfOk result (λ bytes. length bytes ≤ limit) }
        ensures taken { Takes (left self.old) (left self.new) result }
        ensures cause { HasCause (faults self.old) (faults self.new) result }
        ensures memory { MemoryOnly result (self.new ≡ self.old) }
        ensures reliable { IsTrue (is_reliable self.old) →
            RunsReliably (is_reliable self.new) (faults self.old) (faults self.new) result };
}

/// Where bytes are written, in order.
pub trait Sink {
    /// The bytes that were written, where told.
    ghost written: { Self → Option (List ℕ) };

    /// How many calls have failed.
    ghost faults: { Self → ℕ };

    /// Whether no call fails from now on.
    ghost is_reliable: { Self → Bool };

    /// Writes first bytes of the piece, and gives how many.
    fn put(&mut self, alloc: Global, piece: &[u8]) -> Result<u64, WorldFault>
        requires { 1 ≤ length piece.now }
        ensures count { IfOk result (λ count. (1 ≤ count) × (count ≤ length piece.now)) }
        ensures appended { Appends (written self.old) (written self.new) piece.now result }
        ensures cause { HasCause (faults self.old) (faults self.new) result }
        ensures memory { MemoryOnly result (self.new ≡ self.old) }
        ensures reliable { IsTrue (is_reliable self.old) →
            RunsReliably (is_reliable self.new) (faults self.old) (faults self.new) result };
}
