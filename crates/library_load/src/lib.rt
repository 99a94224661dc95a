//! The libraries of folders, what their designs denote, and their limits.
#![tactic(auto)]

mod laws;
mod library;
mod limits;
mod loading;
mod order;
mod stages;

pub use laws::{
    designs_are_typed, designs_have_meanings, libraries_are_judged_in_one_way,
    names_have_one_design, references_are_resolved,
};
pub use library::Library;
pub use library_files::{FaultKind, FileFault, LibraryFault, LoadFault};
pub use limits::check_limits;
pub use loading::load;
