use design_model::CatRow;
use fault_list::FaultKind;
use name_index::NameIndex;
use value_type::{Port, Types};

/// What the columns of a table are for: a name, and then the ports.
#[derive(Drop)]
pub struct Columns<'a> {
    pub types: &'a Types,
    pub provides: &'a [Port],
    pub requires_: &'a [Port],
}

/// What is known of record 0.
#[derive(Clone, Copy, Debug, PartialEq, Eq)]
pub enum Header {
    /// It hasn't been read.
    Missing,
    /// It has the names that it has to have.
    Good,
    /// It is bad in this way, which counts only where another record follows.
    Bad(FaultKind),
}

/// What is kept of the records that have been read.
#[derive(Drop)]
pub struct KeptRows {
    pub header: Header,
    pub rows: Vec<CatRow>,
    /// The names of the rows.
    pub names: NameIndex,
}
