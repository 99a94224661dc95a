//! The files of a folder that belong to a library: which are taken, under which limits, and what they write.
#![tactic(auto)]

mod fault;
mod folder;
mod laws;
mod name;
mod parse;
mod source;

pub use fault::{LibraryFault, LoadFault};
pub use fault_list::{FaultKind, FileFault, StageFault};
pub use folder::gather;
pub use laws::{
    files_are_taken_in_one_way, parsed_choices_have_branches, texts_are_parsed_in_one_way,
    texts_have_one_fault,
};
pub use name::{Ending, is_recognised};
pub use name_table::{SourceFile, Table};
pub use parse::{Parsed, read_files};
