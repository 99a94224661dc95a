ghost use Rattle.std.specs.Prelude.{◌≡◌};
ghost use Rattle.fault_list.specs.Answers.{IsInFile};
ghost use Rattle.fault_list.specs.Faults.{earlier};

use crate::fault::{Fault, FileFault, StageFault, Stop};
use order_core::Text;
use std::alloc::Global;

/// Of two faults the one at the lesser place, and the first one where they stand at the same place.
pub fn earlier(a: Option<Fault>, b: Option<Fault>) -> Option<Fault>
    ensures { result ≡ earlier a b }
{
    match (a, b) {
        (Some(x), Some(y)) => { if x.at <= y.at { Some(x) } else { Some(y) } }
        (Some(x), None) => Some(x),
        (None, b) => b,
    }
}

/// Why a check of one file stopped, with the name of the file.
pub fn in_file(alloc: Global, file: &Text, stop: Stop<Fault>) -> StageFault
    ensures { IsInFile file.now stop result }
{
    match stop {
        Stop::Memory => Stop::Memory,
        Stop::At(fault) => match file.copy(alloc) {
            Ok(file) => Stop::At(FileFault {
                file,
                kind: fault.kind,
                at: fault.at,
            }),
            Err(_) => Stop::Memory,
        },
    }
}
