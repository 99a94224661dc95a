//! What holds of the definitions of the model.
#![tactic(auto)]

mod feasibility;
mod rounds;

pub use feasibility::{holding_is_monotone, what_does_not_fit_never_holds};
pub use rounds::{
    chains_fall_and_rise, feasible_rows_are_feasible_in_rounds, heights_go_by_the_wiring,
    least_ends_settle, nets_without_cut_signals_are_steady, nets_without_loops_have_no_cut_signals,
    rounds_are_monotone, settled_states_are_feasible, states_are_rows, steps_are_monotone,
};
