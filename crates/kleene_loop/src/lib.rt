//! The ascent over antichains: Kleene's iteration to a least fixed point, for any order and any monotone relation.
#![tactic(auto)]

mod climb;
mod laws;
mod points;
mod relation;

pub use climb::{Ascent, Climb};
pub use laws::{chains_rise_fall_and_settle, points_are_asked_once};
pub use relation::Relation;
