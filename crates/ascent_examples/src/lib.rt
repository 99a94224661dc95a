//! Worked examples of ascents: a driver, and relations that rows give.
#![tactic(auto)]

mod driver;
mod rows;

pub use driver::{Outcomes, ascend};
pub use rows::{Notes, Rows, Step, ascend_by_rows};
