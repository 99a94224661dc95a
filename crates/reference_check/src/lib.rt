//! Whether the references of a library keep its rules.
#![tactic(auto)]

mod arguments;
mod body;
mod check;
mod front;
mod library;
mod matching;
mod reference;

pub use body::check_body;
pub use check::check_references;
pub use front::{Front, Wanted};
pub use library::fronts_of;
pub use reference::{Scope, check_reference};
