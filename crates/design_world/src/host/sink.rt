ghost use Rattle.std.specs.Prelude.{◌≡◌, ◌≤◌, IfOk, IsTrue, OnOk, length, take};
ghost use Rattle.std.specs.Io.KnownBytes.{Appends as StreamAppends};
ghost use Rattle.design_world.specs.Bytes.{Appends};
ghost use Rattle.design_world.specs.Fault.{
  FailedOnly,
  HasCause,
  MemoryOnly,
  RunsReliably,
  one_more,
};

use crate::world::{Sink, WorldFault};
use std::alloc::Global;
use std::io::Write;

/// A stream that is written to.
///
/// Each call flushes the stream, so the bytes of every call that answered `Ok` have left the
/// program, and nothing is to be flushed before it ends.
#[derive(Drop)]
pub struct HostSink<W: Write> {
    /// The stream.
    pub to: W,
    /// How many calls failed. It stands still at the greatest `u64`.
    pub failed: u64,
}

impl<W: Write> Sink for HostSink<W> {
    ghost use Rattle.std.specs.Prelude.{None, false};

    ghost written = { λ sink. None };

    ghost faults = { λ sink. sink.failed };

    ghost is_reliable = { λ sink. false };

    /// One write, and a flush. It is a fault if either fails, or if the stream takes nothing; some
    /// bytes of the piece may have been written then.
    fn put(&mut self, _alloc: Global, piece: &[u8]) -> Result<u64, WorldFault>
        requires { 1 ≤ length piece.now }
        ensures count { IfOk result (λ count. (1 ≤ count) × (count ≤ length piece.now)) }
        ensures appended { Appends None None piece.now result }
        ensures cause { HasCause self.old.failed self.new.failed result }
        ensures memory { MemoryOnly result (self.new ≡ self.old) }
        ensures reliable { IsTrue false → RunsReliably false self.old.failed self.new.failed result }

        ensures failed { FailedOnly result (self.new.failed ≡ one_more self.old.failed) }
        ensures answered { OnOk result (self.new.failed ≡ self.old.failed) }

        // A stream whose bytes are known has these ones more.
        ensures stream { IfOk result (λ count.
            StreamAppends (W.contents self.old.to) (W.contents self.new.to) (take count piece.now)) }
    {
        if let Ok(count) = self.to.write(piece)
            && count > 0
            && self.to.flush().is_ok()
        {
            return Ok(count as u64);
        }
        self.failed = self.failed.saturating_add(1);
        Err(WorldFault::Failed)
    }
}
