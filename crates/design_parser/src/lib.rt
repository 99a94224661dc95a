//! The syntax trees that tokens write.
#![tactic(auto)]

mod bodies;
mod exprs;
mod files;
mod laws;
mod names;
mod parse;
mod parts;
mod ports;
mod references;
mod rules;
mod units;
mod values;

pub use laws::{
    expressions_are_no_deeper_than_the_limits, signs_are_counted_up_to_the_semicolon,
    tokens_write_one_tree, trees_are_no_deeper_than_the_brackets,
};
pub use parse::{FileKind, SyntaxFault, parse_file, parse_values};
