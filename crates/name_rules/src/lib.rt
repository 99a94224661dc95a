//! What the rules of names find wrong in one file.
#![tactic(auto)]

mod file;
mod library;
mod named;
mod note;
mod places;
mod references;
mod twice;
mod unknown;

pub use file::{is_small, note_twice_in_file};
pub use library::Library;
pub use named::Named;
pub use places::{names_of, places_of};
pub use unknown::note_unknown_in_file;
