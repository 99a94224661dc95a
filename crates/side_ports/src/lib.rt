//! The ports that trees write, by their sides, each found by its name.
#![tactic(auto)]

mod laws;
mod ports;

pub use laws::ports_are_typed;
pub use ports::{SidePorts, side_ports};
