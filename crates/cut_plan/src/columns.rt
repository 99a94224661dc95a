//! The values that catalogues have at a required port.

ghost use Rattle.std.specs.Prelude.{◌≡◌, ◌++◌, slice_get, Some, None, if◌then◌else◌, IfOk};
ghost use Rattle.std.specs.List.{filter_map};
ghost use Rattle.std.specs.Option.{option_copied};
ghost use Rattle.value_type.specs.declared.poset.Types.{Types as AllTypes};
ghost use Rattle.cut_plan.specs.Totals.{column, with_column, rows_joined};
ghost use Rattle.design_model.specs.Heights.{survey};

use design_model::{CatRow, Design, Part};
use order_core::{List, NoMemory};
use std::alloc::Global;
use value_type::Value;

/// The values at the port in all rows, or none if the design isn't made of catalogues and choices alone.
pub fn column_of(
    alloc: Global,
    design: &Design,
    port: usize,
) -> Result<Option<List<Value>>, NoMemory>
    ensures { IfOk result (λ found. (t : AllTypes) → found ≡ column (survey t design.now).rows port) }
{
    let mut values = Vec::new(alloc);
    if push_column(alloc, design, port, &mut values)? {
        Ok(Some(List::of(values)))
    } else {
        Ok(None)
    }
}

/// Adds the values at the port in all rows. It answers false if the design isn't made of catalogues and choices alone.
#[cycle(push_column)]
fn push_column(
    alloc: Global,
    design: &Design,
    port: usize,
    into: &mut Vec<Value>,
) -> Result<bool, NoMemory>
    ensures { IfOk result (λ known. (t : AllTypes) → with_column into.old.items (column (survey t design.now).rows port) ≡ (if known then Some into.new.items else None)) }
{
    match design {
        Design::Cat { rows, .. } => {
            push_cells(alloc, rows.items(), port, into)?;
            Ok(true)
        }
        Design::Choice { branches, .. } => push_columns(alloc, branches.items(), port, into),
        Design::Net { .. } => Ok(false),
    }
}

/// Adds the values at the port in all rows of all branches.
#[cycle(push_column)]
fn push_columns(
    alloc: Global,
    branches: &[Part],
    port: usize,
    into: &mut Vec<Value>,
) -> Result<bool, NoMemory>
    ensures { IfOk result (λ known. (t : AllTypes) → with_column into.old.items (column (rows_joined t branches.now) port) ≡ (if known then Some into.new.items else None)) }
{
    for branch in branches {
        if !push_column(alloc, &branch.design, port, into)? {
            return Ok(false);
        }
    }
    Ok(true)
}

/// Adds the values at the port in the rows.
fn push_cells(
    alloc: Global,
    rows: &[CatRow],
    port: usize,
    into: &mut Vec<Value>,
) -> Result<(), NoMemory>
    ensures { IfOk result (λ _. into.new.items ≡ into.old.items ++ filter_map (λ row. slice_get row.required port) rows.now) }
{
    for row in rows {
        if let Some(value) = row.required.get(port) {
            if into.push(value.copy(alloc)?).is_err() {
                return Err(NoMemory);
            }
        }
    }
    Ok(())
}
