//! The outside world: folders, sources and sinks, in memory and of the host.
#![tactic(auto)]

mod host;
mod memory;
mod world;
mod write;

pub use host::{HostFolder, HostSink, HostSource};
pub use memory::{MemoryFile, MemoryFolder, MemorySink, MemorySource};
pub use world::{Content, Folder, Sink, Source, WorldFault};
pub use write::put_all;
