ghost use Rattle.std.specs.Prelude.{◌≡◌, IfOk, slice_get};
ghost use Rattle.std.specs.Option.{option_copied};

use crate::copy::copy_value;
use crate::value::Value;
use order_core::{List, NoMemory};
use smallvec::SmallVec;
use std::alloc::Global;
use std::marker::Model;

/// A tuple of values, one for each of some ports. Up to three values are kept within the row itself.
#[derive(Drop)]
pub struct Row {
    values: SmallVec<Value, 3>,
}

impl Model for Row {
    ghost use Rattle.std.specs.Prelude.{List};
    ghost use Rattle.std.specs.Coded.{codes};
    ghost use Rattle.value_type.specs.declared.value.Value.{Value as RowValue};
    ghost use Rattle.value_type.specs.contracts.value.Value as value;

    ghost Value = { List RowValue };

    ghost coded = { Prim.hlevel (codes, value.the_row.coded) };

    ghost view = { λ row. row.values.items };
}

impl Row {
    /// The row of these values.
    pub fn of(_alloc: Global, values: List<Value>) -> Result<Row, NoMemory>
        ensures { IfOk result (λ row. row ≡ values) }
    {
        Ok(Row {
            values: SmallVec::from_vec(values.into_vec()),
        })
    }

    /// The values, in order.
    #[inline(always)]
    pub fn values(&self) -> &[Value]
        ensures { result.now ≡ self.now }
    {
        self.values.as_slice()
    }

    /// The value of this number, if there is one.
    pub fn get(&self, at: usize) -> Option<&Value>
        ensures { option_copied result ≡ slice_get self.now at }
    {
        self.values().get(at)
    }

    /// A row equal to this one. With up to three numbers it takes no memory.
    pub fn copy(&self, alloc: Global) -> Result<Row, NoMemory>
        ensures { IfOk result (λ row. row ≡ self.now) }
    {
        let mut values = SmallVec::new(alloc);
        for value in self.values.as_slice() {
            let copy = copy_value(alloc, value)?;
            if values.push(copy).is_err() {
                return Err(NoMemory);
            }
        }
        Ok(Row { values })
    }
}

/// Rows of these values.
pub fn rows_of(alloc: Global, tuples: List<List<Value>>) -> Result<List<Row>, NoMemory>
    ensures { IfOk result (λ rows. rows ≡ tuples) }
{
    let mut rows = Vec::new(alloc);
    for tuple in tuples.into_vec() {
        let row = Row::of(alloc, tuple)?;
        if rows.push(row).is_err() {
            return Err(NoMemory);
        }
    }
    Ok(List::of(rows))
}
