ghost use Rattle.std.specs.Prelude.{◌≡◌, ◌≤◌, [], IfOk, IsTrue, OnOk, length};
ghost use Rattle.std.specs.Io.KnownBytes.{Consumes, IsAtEnd};
ghost use Rattle.design_world.specs.Bytes.{Takes};
ghost use Rattle.design_world.specs.Fault.{
  FailedOnly,
  HasCause,
  MemoryOnly,
  RunsReliably,
  one_more,
};

use crate::world::{Source, WorldFault};
use order_core::List;
use std::alloc::Global;
use std::io::Read;

/// The most bytes that one call reads.
const PIECE: u64 = 65536;

/// A stream that is read.
#[derive(Drop)]
pub struct HostSource<R: Read> {
    /// The stream.
    pub from: R,
    /// How many calls failed. It stands still at the greatest `u64`.
    pub failed: u64,
}

impl<R: Read> Source for HostSource<R> {
    ghost use Rattle.std.specs.Prelude.{None, false};

    ghost left = { λ source. None };

    ghost faults = { λ source. source.failed };

    ghost is_reliable = { λ source. false };

    /// One read, of at most 64 KiB. It is a fault if the read fails; bytes that it took from the
    /// stream are lost then.
    fn take(&mut self, alloc: Global, limit: u64) -> Result<List<u8>, WorldFault>
        requires { 1 ≤ limit }
        ensures count { IfOk result (λ bytes. length bytes ≤ limit) }
        ensures taken { Takes None None result }
        ensures cause { HasCause self.old.failed self.new.failed result }
        ensures memory { MemoryOnly result (self.new ≡ self.old) }
        ensures reliable { IsTrue false → RunsReliably false self.old.failed self.new.failed result }

        ensures failed { FailedOnly result (self.new.failed ≡ one_more self.old.failed) }
        ensures answered { OnOk result (self.new.failed ≡ self.old.failed) }

        // Of a stream whose bytes are known, the next ones are given, and none only at its end.
        ensures next { IfOk result (λ bytes.
            Consumes (R.remaining self.old.from) (R.remaining self.new.from) bytes) }
        ensures end { IfOk result (λ bytes. bytes ≡ [] → IsAtEnd (R.remaining self.new.from)) }
    {
        let mut bytes = vec![in alloc; 0u8; limit.min(PIECE) as usize]?;
        let Ok(count) = self.from.read(&mut bytes) else {
            self.failed = self.failed.saturating_add(1);
            return Err(WorldFault::Failed);
        };
        bytes.truncate(count);
        Ok(List::of(bytes))
    }
}
