ghost use Rattle.std.specs.Prelude.{◌≡◌};
ghost use Rattle.query_read.specs.Queries as spec;
ghost use Rattle.query_read.specs.declared.query.QueryError.TheVariants.{Memory};
ghost use Rattle.value_type.specs.Types.{AreNamed};

use crate::row::{RowFault, read_row};
use design_model::Design;
use fault_list::Stop;
use order_core::NoMemory;
use row_values::Rounding;
use std::alloc::Global;
use value_type::{Row, Types};

/// What is wrong with a query, or with a tuple of required values.
#[derive(Clone, Copy, Debug, PartialEq, Eq)]
pub enum QueryFault {
    /// There is no design.
    NoDesign,
    /// The text of the query goes wrong at this place.
    Syntax { at: u64 },
    /// The query has so many values, and not one for each provided port.
    Width { found: u64, wanted: u64 },
    /// The first value of the query that means nothing for its port, counted from 0.
    Kind { index: u64 },
    /// The design is none of those that are answered today. No call of this crate answers it.
    NotYet,
    /// The text of the tuple goes wrong at this place.
    TupleSyntax { at: u64 },
    /// The tuple has so many values, and not one for each required port.
    TupleWidth { found: u64, wanted: u64 },
    /// The first value of the tuple that means nothing for its port, counted from 0.
    TupleKind { index: u64 },
}

/// Why nothing was read.
#[derive(Clone, Copy, Debug, PartialEq, Eq)]
pub enum QueryError {
    Refused(QueryFault),
    /// Memory was refused.
    Memory,
}

impl From<NoMemory> for QueryError {
    ghost from_gives = { λ _ error. error ≡ Memory };

    fn from(_error: NoMemory) -> QueryError {
        QueryError::Memory
    }
}

/// A design, and the functionality that is wanted of it.
#[derive(Drop)]
pub struct Query {
    pub design: Design,
    /// One value for each provided port.
    pub f: Row,
}

/// The query that a text writes for a design, which is handed on. Its values are rounded up.
///
/// `NoDesign` where there is no design. Otherwise `Syntax` at the first bad token, or else where the tokens write no
/// values; `Width` where there isn't one value for each provided port; and `Kind` at the first value that means nothing
/// for its port.
pub fn read_query(
    alloc: Global,
    types: &Types,
    design: Option<Design>,
    text: &str,
) -> Result<Query, QueryError>
    requires { AreNamed types.now }
    ensures { spec.AnswersQuery types.now design text.now result }
{
    let Some(found) = design else {
        return Err(QueryError::Refused(QueryFault::NoDesign));
    };
    match read_row(alloc, types, found.provided_ports(), Rounding::Up, text) {
        Ok(f) => Ok(Query { design: found, f }),
        Err(Stop::At(fault)) => Err(QueryError::Refused(fault_of_query(fault))),
        Err(Stop::Memory) => Err(QueryError::Memory),
    }
}

/// The row of required values that a text writes for a design. They are rounded down.
///
/// `TupleSyntax`, `TupleWidth` and `TupleKind` as `read_query` has them, by the required ports.
pub fn read_tuple(
    alloc: Global,
    types: &Types,
    design: &Design,
    text: &str,
) -> Result<Row, QueryError>
    requires { AreNamed types.now }
    ensures { spec.AnswersTuple types.now design.now text.now result }
{
    match read_row(alloc, types, design.required_ports(), Rounding::Down, text) {
        Ok(row) => Ok(row),
        Err(Stop::At(fault)) => Err(QueryError::Refused(fault_of_tuple(fault))),
        Err(Stop::Memory) => Err(QueryError::Memory),
    }
}

fn fault_of_query(fault: RowFault) -> QueryFault
    ensures { result ≡ spec.fault_of_query fault }
{
    match fault {
        RowFault::Syntax { at } => QueryFault::Syntax { at },
        RowFault::Width { found, wanted } => QueryFault::Width { found, wanted },
        RowFault::Kind { index } => QueryFault::Kind { index },
    }
}

fn fault_of_tuple(fault: RowFault) -> QueryFault
    ensures { result ≡ spec.fault_of_tuple fault }
{
    match fault {
        RowFault::Syntax { at } => QueryFault::TupleSyntax { at },
        RowFault::Width { found, wanted } => QueryFault::TupleWidth { found, wanted },
        RowFault::Kind { index } => QueryFault::TupleKind { index },
    }
}
