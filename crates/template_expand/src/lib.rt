//! The designs that modules denote, made without copying a design.
#![tactic(auto)]

mod copy;
mod expanding;
mod trail;

pub use expanding::{expand, specialize};
