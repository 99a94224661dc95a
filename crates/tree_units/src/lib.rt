//! Units, constants, elements and the types of ports, as the trees of a text write them.
#![tactic(auto)]

mod constant;
mod decimal;
mod elements;
mod laws;
mod ports;
#[cfg(test)]
mod tests;
mod unit;

pub use constant::{Constant, constant_of, product_of};
pub use elements::{element_place, elements_named, unknown};
pub use laws::{
    constants_are_exact, constants_have_meanings_or_faults, ports_are_whole,
    ports_have_meanings_or_faults, products_have_meanings_or_faults,
};
pub use ports::{port_of, unit_text};
pub use unit::{is_whole, unit_of};
