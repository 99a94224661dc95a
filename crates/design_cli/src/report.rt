ghost use Rattle.std.specs.Prelude.{◌≡◌, ◌++◌, IfOk, OnOk, string_bytes};
ghost use Rattle.std.specs.List.{flat_map};
ghost use Rattle.design_cli.specs.Report.{line, report};

use order_core::{NoMemory, Text};
use report_text::push_row;
use std::alloc::{AllocError, Global};
use value_type::{Port, Row, Types};

fn push_lines(
    alloc: Global,
    text: &mut String,
    types: &Types,
    ports: &[Port],
    rows: &[Row],
) -> Result<(), AllocError>
    ensures { OnOk result (string_bytes text.new ≡ string_bytes text.old ++ flat_map (line types.now ports.now) rows.now) }
{
    for row in rows {
        push_row(alloc, text, types, ports, row.values())?;
        text.push_str("\n")?;
    }
    Ok(())
}

fn made_report(
    alloc: Global,
    types: &Types,
    ports: &[Port],
    rows: &[Row],
) -> Result<String, AllocError>
    ensures { IfOk result (λ text. string_bytes text ≡ report types.now ports.now rows.now) }
{
    if rows.is_empty() {
        return String::from_str(alloc, "infeasible\n");
    }
    let mut text = String::from_str(alloc, "finished ")?;
    text.push_str(&rows.len().to_string(alloc)?)?;
    text.push_str("\n")?;
    push_lines(alloc, &mut text, types, ports, rows)?;
    Ok(text)
}

/// The report of these rows, with one value for each port.
pub fn report_text(
    alloc: Global,
    types: &Types,
    ports: &[Port],
    rows: &[Row],
) -> Result<Text, NoMemory>
    ensures { IfOk result (λ text. text ≡ report types.now ports.now rows.now) }
{
    match made_report(alloc, types, ports, rows) {
        Ok(text) => Ok(Text::of(text)),
        Err(_) => Err(NoMemory),
    }
}
