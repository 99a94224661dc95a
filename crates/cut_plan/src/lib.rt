//! The order in which a net is evaluated, its cut signals, and how many rounds are enough.
#![tactic(auto)]

mod columns;
mod cuts;
mod heights;
mod laws;
mod numbers;
mod order;
mod reads;
mod rounds;
mod signals;

pub use cuts::{Cuts, cuts_of};
pub use laws::{order_takes_each_part_once, typed_nets_are_few};
pub use reads::Signal;
pub use rounds::rounds_enough;
