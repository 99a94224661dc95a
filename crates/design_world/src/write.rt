ghost use Rattle.std.specs.Prelude.{◌≡◌, [], IsTrue, IsOk};
ghost use Rattle.design_world.specs.Bytes.{Wrote};
ghost use Rattle.design_world.specs.Fault.{HasCause, RunsReliably};

use crate::world::{Sink, WorldFault};
use std::alloc::Global;

/// Writes all the bytes, by as many calls of `put` as it takes. On an `Err` some first ones of
/// them were written.
pub fn put_all<K: Sink>(alloc: Global, sink: &mut K, bytes: &[u8]) -> Result<(), WorldFault>
    ensures wrote { Wrote (K.written sink.old) (K.written sink.new) bytes.now result }
    ensures cause { HasCause (K.faults sink.old) (K.faults sink.new) result }
    ensures reliable { IsTrue (K.is_reliable sink.old) →
        RunsReliably (K.is_reliable sink.new) (K.faults sink.old) (K.faults sink.new) result }
    ensures empty { bytes.now ≡ [] → IsOk result × (sink.new ≡ sink.old) }
{
    let mut at = 0usize;
    while at < bytes.len() {
        let count = sink.put(alloc, &bytes[at..])?;
        at += count as usize;
    }
    Ok(())
}
