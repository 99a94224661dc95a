//! Lists of numbers, elements, tuples and upper sets as lists of values.

ghost use Rattle.std.specs.Prelude.{◌≡◌, IfOk, IsTrue, map};
ghost use Rattle.value_type.specs.Fits.{is_number};
ghost use Rattle.value_type.specs.Forms.{is_one, is_many, is_set};
ghost use Rattle.value_type.specs.Forms.{number_value};
ghost use Rattle.value_type.specs.declared.value.Value.{out-Value};

use crate::value::Value;
use order_core::{List, NoMemory, Num};
use std::alloc::Global;

/// The number that the value is.
pub fn number_of(value: &Value) -> Num
    requires { IsTrue (is_number (out-Value value.now)) }
    ensures { number_value result ≡ value.now }
{
    match value {
        Value::Num(n) => Num::Count(*n),
        _ => Num::Top,
    }
}

/// The element that the value is.
pub fn element_of(value: &Value) -> u32
    requires { IsTrue (is_one (out-Value value.now)) }
    ensures { Value.El result ≡ value.now }
{
    match value {
        Value::El(element) => *element,
        _ => unreachable!(),
    }
}

/// The parts of a tuple.
pub fn parts_of(value: &Value) -> &[Value]
    requires { IsTrue (is_many (out-Value value.now)) }
    ensures { Value.Tup result.now ≡ value.now }
{
    match value {
        Value::Tup(parts) => parts.items(),
        _ => unreachable!(),
    }
}

/// The members of an upper set.
pub fn members_of(value: &Value) -> &List<u32>
    requires { IsTrue (is_set (out-Value value.now)) }
    ensures { Value.Up result.now ≡ value.now }
{
    match value {
        Value::Up(members) => members,
        _ => unreachable!(),
    }
}

/// The value that is this number.
pub fn value_of(number: Num) -> Value
    ensures { result ≡ number_value number }
{
    match number {
        Num::Count(n) => Value::Num(n),
        Num::Top => Value::Top,
    }
}

pub fn numbers(alloc: Global, numbers: List<Num>) -> Result<List<Value>, NoMemory>
    ensures { IfOk result (λ made. made ≡ map number_value numbers) }
{
    match numbers
        .into_vec()
        .into_iter()
        .map(|number| value_of(number))
        .collect(alloc)
    {
        Ok(items) => Ok(List::of(items)),
        Err(_) => Err(NoMemory),
    }
}

pub fn elements(alloc: Global, elements: List<u32>) -> Result<List<Value>, NoMemory>
    ensures { IfOk result (λ made. made ≡ map Value.El elements) }
{
    match elements
        .into_vec()
        .into_iter()
        .map(|element| Value::El(element))
        .collect(alloc)
    {
        Ok(items) => Ok(List::of(items)),
        Err(_) => Err(NoMemory),
    }
}

pub fn tuples(alloc: Global, tuples: List<List<Value>>) -> Result<List<Value>, NoMemory>
    ensures { IfOk result (λ made. made ≡ map Value.Tup tuples) }
{
    match tuples
        .into_vec()
        .into_iter()
        .map(|parts| Value::Tup(parts))
        .collect(alloc)
    {
        Ok(items) => Ok(List::of(items)),
        Err(_) => Err(NoMemory),
    }
}

pub fn upper_sets(alloc: Global, sets: List<List<u32>>) -> Result<List<Value>, NoMemory>
    ensures { IfOk result (λ made. made ≡ map Value.Up sets) }
{
    match sets
        .into_vec()
        .into_iter()
        .map(|members| Value::Up(members))
        .collect(alloc)
    {
        Ok(items) => Ok(List::of(items)),
        Err(_) => Err(NoMemory),
    }
}
