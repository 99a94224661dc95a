//! Tests of orders, units, antichains, values, designs and cuts by the public calls of their crates: what no clause
//! says, that memory isn't refused where there is plenty, and in which order lists come.
#![tactic(auto)]

#[cfg(test)]
mod tests;
