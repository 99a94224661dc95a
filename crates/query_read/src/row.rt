ghost use Rattle.std.specs.Prelude.{◌≡◌, Some};
ghost use Rattle.fault_list.specs.FirstBad.{AnswersBy};
ghost use Rattle.query_read.specs.Queries as spec;
ghost use Rattle.row_values.specs.Rows.{cells_meant};
ghost use Rattle.value_type.specs.Types.{AreNamed};

use design_lexer::{LexFault, ValueTree, lex};
use design_parser::{SyntaxFault, parse_values};
use fault_list::Stop;
use order_core::List;
use row_values::{CellFault, Rounding, value_of_tree};
use std::alloc::Global;
use value_type::{Port, Row, Types};

/// Why a text writes no row for some ports.
#[derive(Clone, Copy, Debug, PartialEq, Eq)]
pub enum RowFault {
    /// It goes wrong at this place.
    Syntax { at: u64 },
    /// It has so many values, and not one for each port.
    Width { found: u64, wanted: u64 },
    /// The first value that means nothing for its port, counted from 0.
    Kind { index: u64 },
}

/// The row that the text writes for the ports, or why it writes none.
pub fn read_row(
    alloc: Global,
    types: &Types,
    ports: &[Port],
    rounding: Rounding,
    text: &str,
) -> Result<Row, Stop<RowFault>>
    requires { AreNamed types.now }
    ensures { AnswersBy (spec.IsRow types.now rounding ports.now text.now) (spec.IsRowFault types.now rounding ports.now text.now) result }
{
    let trees = match trees_of(alloc, text) {
        Ok(trees) => trees,
        Err(stop) => return Err(stop),
    };
    row_of_trees(alloc, types, ports, rounding, trees.items())
}

/// The trees of the values that the text writes, or where it goes wrong.
fn trees_of(alloc: Global, text: &str) -> Result<List<ValueTree>, Stop<RowFault>>
    ensures { AnswersBy (spec.WritesValues text.now) (spec.IsTextFault text.now) result }
{
    let bytes = text.as_bytes();
    let tokens = match lex(alloc, bytes) {
        Ok(tokens) => tokens,
        Err(LexFault::NotText) => unreachable!(),
        Err(LexFault::BadToken { at }) => return Err(Stop::At(RowFault::Syntax { at })),
        Err(LexFault::Memory) => return Err(Stop::Memory),
    };
    match parse_values(alloc, bytes, &tokens) {
        Ok(trees) => Ok(trees),
        Err(SyntaxFault::At { at }) => Err(Stop::At(RowFault::Syntax { at })),
        Err(SyntaxFault::Memory) => Err(Stop::Memory),
    }
}

/// The row of the values that the trees mean, one for each port, or why they mean none.
fn row_of_trees(
    alloc: Global,
    types: &Types,
    ports: &[Port],
    rounding: Rounding,
    trees: &[ValueTree],
) -> Result<Row, Stop<RowFault>>
    requires { AreNamed types.now }
    ensures { AnswersBy (λ row. cells_meant types.now rounding ports.now trees.now ≡ Some row) (spec.IsTreeFault types.now rounding ports.now trees.now) result }
{
    if trees.len() != ports.len() {
        return Err(Stop::At(RowFault::Width {
            found: trees.len() as u64,
            wanted: ports.len() as u64,
        }));
    }
    let mut values = Vec::new(alloc);
    for (at, tree) in trees.iter().enumerate() {
        let value = match value_of_tree(alloc, tree, types, &ports[at].kind, rounding) {
            Ok(value) => value,
            Err(CellFault::Bad) => {
                return Err(Stop::At(RowFault::Kind { index: at as u64 }));
            }
            Err(CellFault::Memory) => return Err(Stop::Memory),
        };
        values.push(value)?;
    }
    let row = Row::of(alloc, List::of(values))?;
    Ok(row)
}
