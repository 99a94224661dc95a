ghost use Rattle.std.specs.Prelude.{◌≡◌, ◌<◌, ◌^◌, ℕ, List, IsTrue, length, map};
ghost use Rattle.std.specs.List.{list_all};
ghost use Rattle.fault_list.specs.Answers.{Answers};
ghost use Rattle.name_table.specs.References.{circular_from};
ghost use Rattle.name_table.specs.Ranks.{AreRanks};
ghost use Rattle.order_core.specs.Walk.{is_pair_below};

use crate::source::SourceFile;
use fault_list::{FaultKind, FileFault, StageFault, Stop};
use order_core::List;
use reachability::Reachability;
use std::alloc::Global;

/// A rank for each file, lower along each reference, or the first file from which a chain of references comes back.
pub fn ranks_of(
    alloc: Global,
    files: &[SourceFile],
    pairs: &[(u32, u32)],
) -> Result<List<u32>, StageFault>
    requires few { length files.now < 2 ^ 32 }
    requires pairs { IsTrue (list_all (is_pair_below (length files.now)) pairs.now) }
    ensures { Answers (circular_from pairs.now (length files.now) 0 files.now) (AreRanks (length files.now) pairs.now) result }
{
    let size = files.len() as u32;
    let reach = Reachability::of(alloc, size, pairs)?;
    if let Some(number) = reach.first_back() {
        let file = files[number as usize].name.copy(alloc)?;
        let kind = FaultKind::Circular;
        return Err(Stop::At(FileFault { file, kind, at: 0 }));
    }
    let mut ranks = Vec::new(alloc);
    for number in 0..size {
        ranks.push(reach.rank(number))?;
    }
    Ok(List::of(ranks))
}
