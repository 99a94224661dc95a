//! The modules of a library: its designs and templates with the names in their references resolved.
#![tactic(auto)]

mod body;
mod fault;
mod linking;
mod modules;

pub use fault::LinkFault;
pub use linking::{links_of, resolve};
pub use modules::modules_of;
