ghost use Rattle.std.specs.Prelude.{◌≡◌};
ghost use Rattle.fault_list.specs.declared.fault.Stop.TheVariants.{Memory};

use order_core::{NoMemory, Text};
use std::alloc::{AllocError, AllocFailed};

/// What is wrong, in the order of the stages that find it. `docs/language.md` says when each comes and where it stands.
#[derive(Clone, Copy, Debug, PartialEq, Eq)]
pub enum FaultKind {
    /// The file isn't UTF-8.
    NotText,
    /// A piece is no token.
    BadToken,
    /// The tokens write no file of the kind.
    Syntax,
    /// A name stands twice where it may stand once.
    Twice,
    /// A name leads nowhere.
    Unknown,
    /// A poset has no element.
    EmptyPoset,
    /// A poset has more than 64 elements.
    LargePoset,
    /// A poset's chains relate two elements both ways.
    NotAnOrder,
    /// A chain of references comes back to the file.
    Circular,
    /// An exponent of a unit leaves -9 to 9.
    Exponent,
    /// The size of a unit or a constant is no fraction in range.
    ConstantRange,
    /// The unit of a number port isn't whole.
    PortGrid,
    /// The second number of a constant is zero.
    ZeroDivisor,
    /// A place is no port of the side that is wanted.
    NoPort,
    /// An operand or a side has the wrong type.
    Mismatch,
    /// A port is neither constrained, read nor ignored.
    Unconnected,
    /// A catalogue or its table has no row.
    NoRows,
    /// A row has the wrong number of values.
    RowWidth,
    /// A value isn't one of its port.
    BadCell,
    /// An argument names no parameter.
    ArgumentUnknown,
    /// A parameter has no argument.
    ArgumentMissing,
    /// Ports differ where they have to be the same.
    PortsDiffer,
    /// A design is more than 64 designs deep.
    TooDeep,
    /// A design has more than 10,000 parts.
    TooLarge,
}

/// A fault in one file, and the number of the first byte that it is about.
#[derive(Clone, Copy, Debug, PartialEq, Eq)]
pub struct Fault {
    pub kind: FaultKind,
    pub at: u64,
}

/// A fault, and the name of the file that has it.
#[derive(Debug, Drop)]
pub struct FileFault {
    pub file: Text,
    pub kind: FaultKind,
    pub at: u64,
}

/// Why a check stopped.
#[derive(Debug, Drop)]
pub enum Stop<F> {
    /// At the first fault.
    At(F),
    /// Memory was refused.
    Memory,
}

/// Why a check of a library's files stopped.
pub type StageFault = Stop<FileFault>;

impl<F: Drop> From<NoMemory> for Stop<F> {
    ghost from_gives = { λ _ stop. stop ≡ Memory };

    fn from(_error: NoMemory) -> Stop<F> {
        Stop::Memory
    }
}

impl<F: Drop> From<AllocError> for Stop<F> {
    ghost from_gives = { λ _ stop. stop ≡ Memory };

    fn from(_error: AllocError) -> Stop<F> {
        Stop::Memory
    }
}

impl<F: Drop, T: Drop> From<AllocFailed<T>> for Stop<F> {
    ghost from_gives = { λ _ stop. stop ≡ Memory };

    fn from(_error: AllocFailed<T>) -> Stop<F> {
        Stop::Memory
    }
}
