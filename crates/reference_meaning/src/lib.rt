//! What a reference to a design, a template or a parameter denotes: as it is written, and with its names resolved.
#![tactic(auto)]

mod laws;
mod module;

pub use laws::{falling_references_denote, meaning_is_unique, modules_denote_what_files_do};
pub use module::{Link, Module, ModuleBody, Resolved};
