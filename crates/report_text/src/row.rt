ghost use Rattle.std.specs.Prelude.{◌≡◌, ◌++◌, OnOk, IfOk, string_bytes};
ghost use Rattle.report_text.specs.Texts as spec;

use crate::separator::push_separator;
use crate::value::push_value;
use order_core::{NoMemory, Text};
use std::alloc::{AllocError, Global};
use value_type::{Port, Types, Value};

/// The text of a row with one value for each port: the texts of the values, or `()` where there is none.
pub fn row_text(
    alloc: Global,
    types: &Types,
    ports: &[Port],
    row: &[Value],
) -> Result<Text, NoMemory>
    ensures { IfOk result (λ text. text ≡ spec.row_text types.now ports.now row.now) }
{
    let mut text = String::new(alloc);
    match push_row(alloc, &mut text, types, ports, row) {
        Ok(()) => Ok(Text::of(text)),
        Err(_) => Err(NoMemory),
    }
}

/// Adds the text of a row with one value for each port.
pub fn push_row(
    alloc: Global,
    text: &mut String,
    types: &Types,
    ports: &[Port],
    values: &[Value],
) -> Result<(), AllocError>
    ensures { OnOk result (string_bytes text.new ≡ string_bytes text.old ++ spec.row_text types.now ports.now values.now) }
{
    if ports.is_empty() || values.is_empty() {
        return text.push_str("()");
    }
    push_values(alloc, text, types, ports, values)
}

#[tactic(auto, using(crate::proofs::JoinedLemmas::joining))]
fn push_values(
    alloc: Global,
    text: &mut String,
    types: &Types,
    ports: &[Port],
    values: &[Value],
) -> Result<(), AllocError>
    ensures { OnOk result (string_bytes text.new ≡ string_bytes text.old ++ spec.joined (spec.value_texts types.now ports.now values.now)) }
{
    for (at, port) in ports.iter().enumerate() {
        if at >= values.len() {
            return Ok(());
        }
        push_separator(text, at)?;
        push_value(alloc, text, types, port, &values[at])?;
    }
    Ok(())
}
