ghost use Rattle.std.specs.Prelude.{◌≡◌};
ghost use Rattle.module_link.specs.declared.fault.LinkFault.TheVariants.{Memory};

use order_core::NoMemory;
use std::alloc::{AllocError, AllocFailed};

/// Why a reference wasn't resolved.
#[derive(Clone, Copy, Debug, PartialEq, Eq)]
pub enum LinkFault {
    /// A name in it is neither a parameter nor a design or template, or a parameter has no argument.
    Unresolved,
    /// Memory was refused.
    Memory,
}

impl From<NoMemory> for LinkFault {
    ghost from_gives = { λ _ fault. fault ≡ Memory };

    fn from(_error: NoMemory) -> LinkFault {
        LinkFault::Memory
    }
}

impl From<AllocError> for LinkFault {
    ghost from_gives = { λ _ fault. fault ≡ Memory };

    fn from(_error: AllocError) -> LinkFault {
        LinkFault::Memory
    }
}

impl<T: Drop> From<AllocFailed<T>> for LinkFault {
    ghost from_gives = { λ _ fault. fault ≡ Memory };

    fn from(_error: AllocFailed<T>) -> LinkFault {
        LinkFault::Memory
    }
}
