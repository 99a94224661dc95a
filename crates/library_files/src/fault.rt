use design_world::WorldFault;
use fault_list::FileFault;
use order_core::{NoMemory, Text};
use std::alloc::{AllocError, AllocFailed};

/// What is wrong with a library.
#[derive(Debug, Drop)]
pub enum LibraryFault {
    /// More than 1,000 files belong to it.
    TooManyFiles { count: u64 },
    /// The file has more than 1,048,576 bytes.
    FileTooLong { file: Text },
    /// With the file, all up to it have more than 16,777,216 bytes.
    LibraryTooLong { file: Text },
    /// A file breaks a rule of the language.
    Refused(FileFault),
}

/// Why a library wasn't loaded.
#[derive(Debug, Drop)]
pub enum LoadFault {
    /// A call on the folder failed, and the folder counted it.
    Folder,
    Library(LibraryFault),
    /// Memory was refused.
    Memory,
}

impl From<WorldFault> for LoadFault {
    ghost use Rattle.std.specs.Prelude.{◌≡◌};
    ghost use Rattle.library_files.specs.Taken.{load_fault};

    ghost from_gives = { λ fault load. load ≡ load_fault fault };

    fn from(fault: WorldFault) -> LoadFault {
        match fault {
            WorldFault::Failed => LoadFault::Folder,
            WorldFault::Memory => LoadFault::Memory,
        }
    }
}

impl From<NoMemory> for LoadFault {
    ghost use Rattle.std.specs.Prelude.{◌≡◌};
    ghost use Rattle.library_files.specs.declared.fault.LoadFault.TheVariants.{Memory};

    ghost from_gives = { λ _ load. load ≡ Memory };

    fn from(_error: NoMemory) -> LoadFault {
        LoadFault::Memory
    }
}

impl From<AllocError> for LoadFault {
    ghost use Rattle.std.specs.Prelude.{◌≡◌};
    ghost use Rattle.library_files.specs.declared.fault.LoadFault.TheVariants.{Memory};

    ghost from_gives = { λ _ load. load ≡ Memory };

    fn from(_error: AllocError) -> LoadFault {
        LoadFault::Memory
    }
}

impl<T: Drop> From<AllocFailed<T>> for LoadFault {
    ghost use Rattle.std.specs.Prelude.{◌≡◌};
    ghost use Rattle.library_files.specs.declared.fault.LoadFault.TheVariants.{Memory};

    ghost from_gives = { λ _ load. load ≡ Memory };

    fn from(_error: AllocFailed<T>) -> LoadFault {
        LoadFault::Memory
    }
}
