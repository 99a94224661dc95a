ghost use Rattle.std.specs.Prelude.{◌≡◌, ◌++◌, OnOk, IfOk, map, string_bytes};
ghost use Rattle.report_text.specs.Texts as spec;
ghost use Rattle.value_type.specs.declared.port.PortUnit.{out-PortUnit};
ghost use Rattle.value_type.specs.declared.value.Value.{out-Value};

use crate::element::{push_element, push_upper};
use crate::number::push_number;
use crate::separator::push_separator;
use order_core::{NoMemory, Text};
use std::alloc::{AllocError, Global};
use value_type::{Kind, Port, PortUnit, Types, Value};

/// The text of a value of this port. One that doesn't fit the port may have any text.
pub fn value_text(
    alloc: Global,
    types: &Types,
    port: &Port,
    value: &Value,
) -> Result<Text, NoMemory>
    ensures { IfOk result (λ text. text ≡ spec.value_text types.now port.now.kind port.now.unit value.now) }
{
    let mut text = String::new(alloc);
    match push_value(alloc, &mut text, types, port, value) {
        Ok(()) => Ok(Text::of(text)),
        Err(_) => Err(NoMemory),
    }
}

/// Adds the text of a value of this port.
pub fn push_value(
    alloc: Global,
    text: &mut String,
    types: &Types,
    port: &Port,
    value: &Value,
) -> Result<(), AllocError>
    ensures { OnOk result (string_bytes text.new ≡ string_bytes text.old ++ spec.value_text types.now port.now.kind port.now.unit value.now) }
{
    push_typed(alloc, text, types, &port.kind, &port.unit, value)
}

/// Adds the text of a value of this type, written in this unit.
#[cycle(push)]
fn push_typed(
    alloc: Global,
    text: &mut String,
    types: &Types,
    kind: &Kind,
    unit: &PortUnit,
    value: &Value,
) -> Result<(), AllocError>
    ensures { OnOk result (string_bytes text.new ≡ string_bytes text.old ++ spec.value_text types.now kind.now unit.now value.now) }
{
    match kind {
        Kind::Num(_) => push_number(alloc, text, unit, value),
        Kind::Fin(k) => push_element(text, types.posets.get(*k as usize), value),
        Kind::Prod(kinds) => push_tuple(alloc, text, types, kinds.items(), unit, value),
        Kind::Up(k) => push_upper(text, types.posets.get(*k as usize), value),
    }
}

/// A tuple of values of these types.
#[cycle(push)]
fn push_tuple(
    alloc: Global,
    text: &mut String,
    types: &Types,
    kinds: &[Kind],
    unit: &PortUnit,
    value: &Value,
) -> Result<(), AllocError>
    ensures { OnOk result (string_bytes text.new ≡ string_bytes text.old ++ spec.tuple_text (map (spec.value_text types.now) kinds.now) (out-PortUnit unit.now) (out-Value value.now)) }
{
    match unit {
        PortUnit::Parts(units) => match value {
            Value::Tup(values) => {
                text.push_str("<")?;
                push_parts(alloc, text, types, kinds, units.items(), values.items())?;
                text.push_str(">")
            }
            _ => Ok(()),
        },
        _ => Ok(()),
    }
}

/// The parts of a tuple, as many as have a type, a unit and a value.
#[cycle(push)]
#[tactic(auto, using(crate::proofs::JoinedLemmas::joining))]
fn push_parts(
    alloc: Global,
    text: &mut String,
    types: &Types,
    kinds: &[Kind],
    units: &[PortUnit],
    values: &[Value],
) -> Result<(), AllocError>
    ensures { OnOk result (string_bytes text.new ≡ string_bytes text.old ++ spec.joined (spec.part_texts (map (spec.value_text types.now) kinds.now) units.now values.now)) }
{
    for (at, kind) in kinds.iter().enumerate() {
        if at >= units.len() {
            return Ok(());
        }
        if at >= values.len() {
            return Ok(());
        }
        push_separator(text, at)?;
        push_typed(alloc, text, types, kind, &units[at], &values[at])?;
    }
    Ok(())
}
