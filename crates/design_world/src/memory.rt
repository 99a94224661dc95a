//! Objects in memory, whose calls fail where they are told to.
mod fails;
mod folder;
mod sink;
mod source;

pub use folder::{MemoryFile, MemoryFolder};
pub use sink::MemorySink;
pub use source::MemorySource;
