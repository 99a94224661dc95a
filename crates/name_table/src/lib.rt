//! The names of a library: which there are, whether they lead anywhere, and which files refer to one another.
#![tactic(auto)]

mod examine;
mod laws;
mod library;
mod names;
mod orders;
mod ports;
mod posets;
mod ranks;
mod references;
mod size;
mod source;
mod stems;

pub use fault_list::{Fault, FaultKind, FileFault, StageFault};
pub use laws::{
    circular_files_come_back, cycles_lead_both_ways, files_have_one_list_of_posets, references_fall,
};
pub use names::{Names, build};
pub use ports::port_of;
pub use size::are_small;
pub use source::{SourceFile, Table};
