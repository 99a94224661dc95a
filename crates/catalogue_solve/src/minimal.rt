ghost use Rattle.std.specs.Prelude.{◌≡◌, IfOk, IsTrue};
ghost use Rattle.std.specs.List.{list_all};
ghost use Rattle.std.specs.List.Sorted.{IsPermutation, IsSortedBy};
ghost use Rattle.value_type.specs.Fits.{row_fits};
ghost use Rattle.value_type.specs.Leq.{row_leq};
ghost use Rattle.value_type.specs.PortKinds.{port_kinds};
ghost use Rattle.value_type.specs.PrintOrder.{is_before};
ghost use Rattle.design_model.specs.Feasible.{AreMinima};
ghost use Rattle.design_model.specs.Parts.{provided_ports, is_catalogue};
ghost use Rattle.design_model.specs.Typed.{rows_fit};
ghost use Rattle.catalogue_solve.specs.Enough.{required_by, AreSortedMinima};
ghost use Rattle.catalogue_solve.specs.Numbers.{are_numbers};

use antichain::Antichain;
use design_model::{CatRow, Design};
use order_core::{List, NoMemory};
use std::alloc::Global;
use value_type::{Kind, Port, Row, RowOrder, Types, kinds_of, ports_leq, print_order_rows};

/// What the rows require that provide enough.
fn enough(
    alloc: Global,
    types: &Types,
    provides: &[Port],
    rows: &[CatRow],
    f: &Row,
) -> Result<Vec<Row>, NoMemory>
    ensures { IfOk result (λ found. found.items ≡ required_by types.now provides.now f.now rows.now) }
{
    let mut found = Vec::new(alloc);
    for row in rows {
        if ports_leq(types, provides, f.values(), row.provided.values()) {
            let required = row.required.copy(alloc)?;
            if found.push(required).is_err() {
                return Err(NoMemory);
            }
        }
    }
    Ok(found)
}

/// Puts rows into the order in which they are printed.
fn sort_rows(rows: &mut Vec<Row>)
    ensures permutation { IsPermutation rows.old.items rows.new.items }
    ensures sorted { IsSortedBy is_before rows.new.items }
{
    rows.sort_unstable_by(|a, b| print_order_rows(a, b));
}

/// Whether all types are of numbers.
fn are_numbers(kinds: &[Kind]) -> bool
    ensures { result ≡ are_numbers kinds.now }
{
    kinds.iter().all(|kind| matches!(kind, Kind::Num(_)))
}

/// The minimal rows of a list that is in print order.
fn minima_of(alloc: Global, order: &RowOrder, rows: Vec<Row>) -> Result<List<Row>, NoMemory>
    requires fit { IsTrue (list_all (row_fits order.now.types.now order.now.kinds) rows.items) }
    requires sorted { IsSortedBy is_before rows.items }
    ensures { IfOk result (AreSortedMinima (row_leq order.now.types.now order.now.kinds) rows.items) }
{
    let rows = List::of(rows);
    if !are_numbers(order.kinds.items()) {
        return Ok(Antichain::of(alloc, order, rows)?.into_list());
    }
    if order.kinds.items().len() == 2 {
        return Ok(Antichain::of_swept(alloc, order, rows)?.into_list());
    }
    Ok(Antichain::of_ordered(alloc, order, rows)?.into_list())
}

/// The minimal rows of a list, in print order.
fn sorted_minima(
    alloc: Global,
    types: &Types,
    ports: &[Port],
    rows: Vec<Row>,
) -> Result<List<Row>, NoMemory>
    requires { IsTrue (list_all (row_fits types.now (port_kinds ports.now)) rows.items) }
    ensures { IfOk result (AreSortedMinima (row_leq types.now (port_kinds ports.now)) rows.items) }
{
    let order = RowOrder {
        types,
        kinds: kinds_of(alloc, ports)?,
    };
    let mut rows = rows;
    sort_rows(&mut rows);
    minima_of(alloc, &order, rows)
}

/// The minimal rows that a catalogue allows for the functionality `f`, in print order.
pub fn minimal_rows(
    alloc: Global,
    types: &Types,
    design: &Design,
    f: &Row,
) -> Result<List<Row>, NoMemory>
    requires catalogue { IsTrue (is_catalogue design.now) }
    requires rows_fit { IsTrue (rows_fit types.now design.now) }
    requires f_fits { IsTrue (row_fits types.now (port_kinds (provided_ports design.now)) f.now) }
    ensures { IfOk result (AreMinima types.now design.now f.now) }
{
    let found = enough(alloc, types, design.provided_ports(), design.rows(), f)?;
    sorted_minima(alloc, types, design.required_ports(), found)
}
