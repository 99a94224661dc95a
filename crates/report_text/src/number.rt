ghost use Rattle.std.specs.Prelude.{◌≡◌, ◌++◌, OnOk, string_bytes};
ghost use Rattle.report_text.specs.Texts.{number_text, ratio_text, units_text};
ghost use Rattle.unit_core.specs.Ratio.{quotient, ratio};
ghost use Rattle.value_type.specs.declared.port.PortUnit.{out-PortUnit};
ghost use Rattle.value_type.specs.declared.value.Value.{out-Value};

use std::alloc::{AllocError, Global};
use unit_core::Fraction;
use value_type::{PortUnit, Value};

/// A whole number, or a fraction.
fn push_ratio(alloc: Global, text: &mut String, fraction: Fraction) -> Result<(), AllocError>
    ensures { OnOk result (string_bytes text.new ≡ string_bytes text.old ++ ratio_text (ratio fraction)) }
{
    text.push_str(&fraction.num.to_string(alloc)?)?;
    if fraction.den == 1 {
        return Ok(());
    }
    text.push_str("/")?;
    text.push_str(&fraction.den.to_string(alloc)?)
}

/// How many units of the size a count is, and the unit.
fn push_units(
    alloc: Global,
    text: &mut String,
    count: u64,
    unit: &str,
    size: u64,
) -> Result<(), AllocError>
    ensures { OnOk result (string_bytes text.new ≡ string_bytes text.old ++ units_text (quotient count size) unit.now) }
{
    match Fraction::new(count as u128, size as u128) {
        Ok(fraction) => {
            push_ratio(alloc, text, fraction)?;
            text.push_str(" ")?;
            text.push_str(unit)
        }
        Err(_) => Ok(()),
    }
}

/// A count in the port's unit, or Top.
pub fn push_number(
    alloc: Global,
    text: &mut String,
    unit: &PortUnit,
    value: &Value,
) -> Result<(), AllocError>
    ensures { OnOk result (string_bytes text.new ≡ string_bytes text.old ++ number_text (out-PortUnit unit.now) (out-Value value.now)) }
{
    match value {
        Value::Num(count) => match unit {
            PortUnit::Nat => text.push_str(&count.to_string(alloc)?),
            PortUnit::Unit { text: unit, size } => {
                push_units(alloc, text, *count, unit.as_str(), *size)
            }
            _ => Ok(()),
        },
        Value::Top => text.push_str("Top"),
        _ => Ok(()),
    }
}
