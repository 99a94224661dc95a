ghost use Rattle.std.specs.Prelude.{◌≡◌, Some, length};
ghost use Rattle.fault_list.specs.Answers.{Answers};
ghost use Rattle.fault_list.specs.Faults.{fault_unless};
ghost use Rattle.row_values.specs.Rows as spec;
ghost use Rattle.row_values.specs.Values.{value_meant};
ghost use Rattle.value_type.specs.Types.{AreNamed};

use crate::value::{CellFault, Rounding, value_of_tree};
use design_lexer::{RowTree, ValueTree};
use design_model::CatRow;
use fault_list::{Fault, FaultKind, Stop};
use order_core::List;
use std::alloc::Global;
use value_type::{Port, Row, Types, Value};

/// The place of the value's first token.
pub fn place_of(tree: &ValueTree) -> u64
    ensures { result ≡ spec.place_of tree.now }
{
    match tree {
        ValueTree::Top { at } => *at,
        ValueTree::Constant(constant) => constant.at,
        ValueTree::Element { poset, .. } => poset.at,
        ValueTree::Upper { poset, .. } => poset.at,
        ValueTree::Tuple { at, .. } => *at,
    }
}

/// The rows that the trees mean, for these ports, or the first of what is wrong with them.
///
/// `NoRows` at 0 where there is none. Of each row `RowWidth` at its name where it hasn't one value for each port, and
/// otherwise `BadCell` at the first token of each value that means none of its port. Provided values are rounded down,
/// and required ones up.
pub fn rows_of_trees(
    alloc: Global,
    rows: &[RowTree],
    types: &Types,
    provides: &[Port],
    requires_: &[Port],
) -> Result<List<CatRow>, Stop<Fault>>
    requires types { AreNamed types.now }
    ensures { Answers (spec.rows_faults types.now provides.now requires_.now rows.now) (λ made. Some made ≡ spec.rows_meant types.now provides.now requires_.now rows.now) result }
{
    if rows.is_empty() {
        return Err(Stop::At(Fault {
            kind: FaultKind::NoRows,
            at: 0,
        }));
    }
    let mut made = Vec::new(alloc);
    for row in rows {
        let next = row_of(alloc, row, types, provides, requires_)?;
        made.push(next)?;
    }
    made.shrink_to_fit();
    Ok(List::of(made))
}

/// The row that the tree means, or the first of what is wrong with it.
fn row_of(
    alloc: Global,
    row: &RowTree,
    types: &Types,
    provides: &[Port],
    requires_: &[Port],
) -> Result<CatRow, Stop<Fault>>
    requires types { AreNamed types.now }
    ensures { Answers (spec.row_faults types.now provides.now requires_.now row.now) (λ made. Some made ≡ spec.row_meant types.now provides.now requires_.now row.now) result }
{
    if row.provided.items().len() != provides.len()
        || row.required.items().len() != requires_.len()
    {
        return Err(Stop::At(Fault {
            kind: FaultKind::RowWidth,
            at: row.name.at,
        }));
    }
    let provided = cells_of(alloc, row.provided.items(), types, provides, Rounding::Down)?;
    let required = cells_of(alloc, row.required.items(), types, requires_, Rounding::Up)?;
    let name = row.name.name.copy(alloc)?;
    Ok(CatRow {
        name,
        provided,
        required,
    })
}

/// The values of the ports that the trees mean, one for each.
fn cells_of(
    alloc: Global,
    trees: &[ValueTree],
    types: &Types,
    ports: &[Port],
    rounding: Rounding,
) -> Result<Row, Stop<Fault>>
    requires types { AreNamed types.now }
    requires width { length trees.now ≡ length ports.now }
    ensures { Answers (spec.cell_faults types.now rounding ports.now trees.now) (λ made. Some made ≡ spec.cells_meant types.now rounding ports.now trees.now) result }
{
    let mut values = Vec::new(alloc);
    for (at, tree) in trees.iter().enumerate() {
        let value = match cell_of(alloc, tree, types, &ports[at], rounding) {
            Ok(value) => value,
            Err(stop) => return Err(stop),
        };
        values.push(value)?;
    }
    values.shrink_to_fit();
    let row = Row::of(alloc, List::of(values))?;
    Ok(row)
}

/// The value of the port that the tree means.
fn cell_of(
    alloc: Global,
    tree: &ValueTree,
    types: &Types,
    port: &Port,
    rounding: Rounding,
) -> Result<Value, Stop<Fault>>
    requires types { AreNamed types.now }
    ensures { Answers (fault_unless (value_meant types.now rounding port.now.kind tree.now) (spec.bad_cell (spec.place_of tree.now))) (λ made. Some made ≡ value_meant types.now rounding port.now.kind tree.now) result }
{
    match value_of_tree(alloc, tree, types, &port.kind, rounding) {
        Ok(value) => Ok(value),
        Err(CellFault::Bad) => Err(Stop::At(Fault {
            kind: FaultKind::BadCell,
            at: place_of(tree),
        })),
        Err(CellFault::Memory) => Err(Stop::Memory),
    }
}
