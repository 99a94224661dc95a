//! The ports of a library's files, the types of its rules, and whether every port is connected.
#![tactic(auto)]

mod connected;
mod connection;
mod declared;
mod laws;
mod marks;
mod named;
mod parameters;
mod places;
mod rules;
mod scope;
mod shared;
mod table;
mod types;

pub use connection::check_connected;
pub use declared::declaring_files;
pub use laws::{
    choices_have_the_ports_of_their_first_branch, names_leave_nothing_unknown, nets_are_typed,
    rules_are_typed,
};
pub use parameters::Parameters;
pub use rules::constraints_of;
pub use scope::{Scope, ScopePart};
pub use shared::Shared;
pub use table::PortTable;
pub use types::{check_types, lower_of, scope_of};
