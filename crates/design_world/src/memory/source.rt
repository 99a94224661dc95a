ghost use Rattle.std.specs.Prelude.{◌≡◌, ◌≤◌, ◌↔◌, IfOk, IsTrue, OnOk, drop, length, min, take};
ghost use Rattle.order_core.specs.Members.{IsMember};
ghost use Rattle.design_world.specs.Bytes.{Takes};
ghost use Rattle.design_world.specs.Fault.{
  FailedOnly,
  HasCause,
  MemoryOnly,
  RunsReliably,
  one_more,
};
ghost use Rattle.design_world.specs.InMemory.{none_fail};

use super::fails::fails;
use crate::world::{Source, WorldFault};
use order_core::List;
use std::alloc::Global;
use std::mem;

/// A source in memory.
///
/// Calls are numbered from 0. A call whose number is in `failing` answers `Failed`. Want of memory
/// changes nothing, and is not counted as a call.
#[derive(Debug, Drop)]
pub struct MemorySource {
    /// The bytes that are left.
    pub bytes: List<u8>,
    /// The most bytes that one call gives.
    pub piece: u64,
    /// The numbers of the calls that fail.
    pub failing: List<u64>,
    /// How many calls were answered or failed, which is the next call's number. It stands still at
    /// the greatest `u64`.
    pub calls: u64,
    /// How many calls failed. It stands still at the greatest `u64`.
    pub failed: u64,

    ghost gives_some: { 1 ≤ piece },
}

impl Source for MemorySource {
    ghost use Rattle.std.specs.Prelude.{Some};

    ghost left = { λ source. Some source.bytes };

    ghost faults = { λ source. source.failed };

    ghost is_reliable = { λ source. none_fail source.failing };

    fn take(&mut self, alloc: Global, limit: u64) -> Result<List<u8>, WorldFault>
        requires { 1 ≤ limit }
        ensures count { IfOk result (λ bytes. length bytes ≤ limit) }
        ensures taken { Takes (Some self.old.bytes) (Some self.new.bytes) result }
        ensures cause { HasCause self.old.failed self.new.failed result }
        ensures memory { MemoryOnly result (self.new ≡ self.old) }
        ensures reliable { IsTrue (none_fail self.old.failing) →
            RunsReliably (none_fail self.new.failing) self.old.failed self.new.failed result }

        ensures failing { (result ≡ Err WorldFault.Failed) ↔ IsMember self.old.calls self.old.failing }
        ensures failed { FailedOnly result (self.new ≡
            record self.old { calls = one_more self.old.calls; failed = one_more self.old.failed }) }
        ensures answered { OnOk result (self.new ≡ record self.old {
          bytes = drop (min self.old.piece limit) self.old.bytes;
          calls = one_more self.old.calls;
        }) }
        ensures front { IfOk result (λ bytes. bytes ≡ take (min self.old.piece limit) self.old.bytes) }
    {
        if fails(self.failing.items(), self.calls) {
            self.failed = self.failed.saturating_add(1);
            self.calls = self.calls.saturating_add(1);
            return Err(WorldFault::Failed);
        }
        let left = self.bytes.items();
        let count = self.piece.min(limit) as usize;
        let taken = Vec::from_slice(alloc, &left[..count.min(left.len())])?;
        drop_front(alloc, &mut self.bytes, count);
        self.calls = self.calls.saturating_add(1);
        Ok(List::of(taken))
    }
}

/// Drops the first bytes, or all where they are fewer; the others move to the front, in the same
/// memory.
#[tactic(auto, using(std::proofs::lemmas::List::drop_min))]
fn drop_front(alloc: Global, bytes: &mut List<u8>, count: usize)
    ensures { bytes.new ≡ drop count bytes.old }
{
    let mut rest = mem::replace(bytes, List::of(Vec::new(alloc))).into_vec();
    let gone = count.min(rest.len());
    let left = rest.len() - gone;
    rest.rotate_left(gone);
    rest.truncate(left);
    *bytes = List::of(rest);
}
