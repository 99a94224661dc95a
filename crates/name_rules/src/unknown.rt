//! The names of a file that lead nowhere.

mod expressions;
mod file;
mod names;
mod references;
mod types;

pub use file::note_unknown_in_file;
