//! Objects over the system's folders and streams. They tell nothing of what they hold.
mod folder;
mod sink;
mod source;

pub use folder::HostFolder;
pub use sink::HostSink;
pub use source::HostSource;
