ghost use Rattle.std.specs.Prelude.{◌≡◌, IfOk};

use crate::kind::Kind;
use crate::port::PortUnit;
use crate::value::Value;
use order_core::{List, NoMemory};
use std::alloc::Global;

/// A value equal to this one.
#[cycle(copy)]
pub fn copy_value(alloc: Global, value: &Value) -> Result<Value, NoMemory>
    ensures { IfOk result (λ made. made ≡ value.now) }
{
    match value {
        Value::Num(n) => Ok(Value::Num(*n)),
        Value::Top => Ok(Value::Top),
        Value::El(element) => Ok(Value::El(*element)),
        Value::Tup(parts) => Ok(Value::Tup(List::of(copy_values(alloc, parts.items())?))),
        Value::Up(members) => match members.items().to_vec(alloc) {
            Ok(members) => Ok(Value::Up(List::of(members))),
            Err(_) => Err(NoMemory),
        },
    }
}

/// Values equal to these, in order.
#[cycle(copy)]
pub fn copy_values(alloc: Global, values: &[Value]) -> Result<Vec<Value>, NoMemory>
    ensures { IfOk result (λ made. made.items ≡ values.now) }
{
    let mut made = Vec::new(alloc);
    for value in values {
        let copy = copy_value(alloc, value)?;
        if made.push(copy).is_err() {
            return Err(NoMemory);
        }
    }
    Ok(made)
}

/// A type equal to this one.
#[cycle(copy_kind)]
pub fn copy_kind(alloc: Global, kind: &Kind) -> Result<Kind, NoMemory>
    ensures { IfOk result (λ made. made ≡ kind.now) }
{
    match kind {
        Kind::Num(dim) => Ok(Kind::Num(*dim)),
        Kind::Fin(k) => Ok(Kind::Fin(*k)),
        Kind::Prod(parts) => Ok(Kind::Prod(List::of(copy_all_kinds(alloc, parts.items())?))),
        Kind::Up(k) => Ok(Kind::Up(*k)),
    }
}

/// Types equal to these, in order.
#[cycle(copy_kind)]
pub fn copy_all_kinds(alloc: Global, kinds: &[Kind]) -> Result<Vec<Kind>, NoMemory>
    ensures { IfOk result (λ made. made.items ≡ kinds.now) }
{
    let mut made = Vec::new(alloc);
    for kind in kinds {
        let copy = copy_kind(alloc, kind)?;
        if made.push(copy).is_err() {
            return Err(NoMemory);
        }
    }
    Ok(made)
}

/// A unit equal to this one.
#[cycle(copy_unit)]
pub fn copy_unit(alloc: Global, unit: &PortUnit) -> Result<PortUnit, NoMemory>
    ensures { IfOk result (λ made. made ≡ unit.now) }
{
    match unit {
        PortUnit::Nat => Ok(PortUnit::Nat),
        PortUnit::Unit { text, size } => Ok(PortUnit::Unit {
            text: text.copy(alloc)?,
            size: *size,
        }),
        PortUnit::Poset => Ok(PortUnit::Poset),
        PortUnit::Parts(parts) => Ok(PortUnit::Parts(List::of(copy_units(alloc, parts.items())?))),
    }
}

/// Units equal to these, in order.
#[cycle(copy_unit)]
fn copy_units(alloc: Global, units: &[PortUnit]) -> Result<Vec<PortUnit>, NoMemory>
    ensures { IfOk result (λ made. made.items ≡ units.now) }
{
    let mut made = Vec::new(alloc);
    for unit in units {
        let copy = copy_unit(alloc, unit)?;
        if made.push(copy).is_err() {
            return Err(NoMemory);
        }
    }
    Ok(made)
}
