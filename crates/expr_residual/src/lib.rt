//! What is left of an expression where wires carry a part of what it reads.
#![tactic(auto)]

mod closing;
mod frame;
mod joining;
mod moving;
mod operands;
mod reading;
mod split;
mod taking;

pub use frame::Frame;
pub use moving::{Leads, moved};
pub use reading::{mark_reads, reads_part};
pub use split::{Associative, Split};
pub use taking::residual;
