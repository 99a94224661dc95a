ghost use Rattle.std.specs.Prelude.{◌≡◌, ◌≤◌, ◌++◌, ◌↔◌, IfOk, IsTrue, OnOk, OnErr, length, min, take};
ghost use Rattle.order_core.specs.Members.{IsMember};
ghost use Rattle.design_world.specs.Bytes.{Appends};
ghost use Rattle.design_world.specs.Fault.{
  FailedOnly,
  HasCause,
  MemoryOnly,
  RunsReliably,
  one_more,
};
ghost use Rattle.design_world.specs.InMemory.{none_fail};

use super::fails::fails;
use crate::world::{Sink, WorldFault};
use order_core::List;
use std::alloc::{AllocError, Global};
use std::mem;

/// A sink in memory.
///
/// Calls are numbered from 0. A call whose number is in `failing` answers `Failed`. Want of memory
/// changes nothing, and is not counted as a call.
#[derive(Debug, Drop)]
pub struct MemorySink {
    /// The bytes that were written.
    pub written: List<u8>,
    /// The most bytes that one call takes.
    pub piece: u64,
    /// The numbers of the calls that fail.
    pub failing: List<u64>,
    /// How many calls were answered or failed, which is the next call's number. It stands still at
    /// the greatest `u64`.
    pub calls: u64,
    /// How many calls failed. It stands still at the greatest `u64`.
    pub failed: u64,

    ghost takes_some: { 1 ≤ piece },
}

impl Sink for MemorySink {
    ghost use Rattle.std.specs.Prelude.{Some};

    ghost written = { λ sink. Some sink.written };

    ghost faults = { λ sink. sink.failed };

    ghost is_reliable = { λ sink. none_fail sink.failing };

    fn put(&mut self, alloc: Global, piece: &[u8]) -> Result<u64, WorldFault>
        requires { 1 ≤ length piece.now }
        ensures count { IfOk result (λ count. (1 ≤ count) × (count ≤ length piece.now)) }
        ensures appended { Appends (Some self.old.written) (Some self.new.written) piece.now result }
        ensures cause { HasCause self.old.failed self.new.failed result }
        ensures memory { MemoryOnly result (self.new ≡ self.old) }
        ensures reliable { IsTrue (none_fail self.old.failing) →
            RunsReliably (none_fail self.new.failing) self.old.failed self.new.failed result }

        ensures failing { (result ≡ Err WorldFault.Failed) ↔ IsMember self.old.calls self.old.failing }
        ensures failed { FailedOnly result (self.new ≡
            record self.old { calls = one_more self.old.calls; failed = one_more self.old.failed }) }
        ensures answered { IfOk result (λ count. self.new ≡ record self.old {
          written = self.old.written ++ take count piece.now;
          calls = one_more self.old.calls;
        }) }
        ensures front { IfOk result (λ count. count ≡ min self.old.piece (length piece.now)) }
    {
        if fails(self.failing.items(), self.calls) {
            self.failed = self.failed.saturating_add(1);
            self.calls = self.calls.saturating_add(1);
            return Err(WorldFault::Failed);
        }
        let count = self.piece.min(piece.len() as u64);
        append(alloc, &mut self.written, &piece[..count as usize])?;
        self.calls = self.calls.saturating_add(1);
        Ok(count)
    }
}

/// Appends the bytes, in the same memory where there is room.
fn append(alloc: Global, written: &mut List<u8>, bytes: &[u8]) -> Result<(), AllocError>
    ensures ok { OnOk result (written.new ≡ written.old ++ bytes.now) }
    ensures err { OnErr result (written.new ≡ written.old) }
{
    let mut all = mem::replace(written, List::of(Vec::new(alloc))).into_vec();
    let result = all.extend_from_slice(bytes);
    *written = List::of(all);
    result
}
