ghost use Rattle.std.specs.Prelude.{◌≡◌, IfOk};

use crate::copy::copy_value;
use order_core::{List, NoMemory};
use std::alloc::Global;

/// A value of some type.
#[derive(Debug, Drop)]
pub enum Value {
    /// A whole count.
    Num(u64),
    /// The number that is greater than every count.
    Top,
    /// The element of a poset with this number.
    El(u32),
    /// A tuple.
    Tup(List<Value>),
    /// An upper set of a poset: its minimal elements in rising order.
    Up(List<u32>),
}

impl Value {
    /// A value equal to this one.
    pub fn copy(&self, alloc: Global) -> Result<Value, NoMemory>
        ensures { IfOk result (λ made. made ≡ self.now) }
    {
        copy_value(alloc, self)
    }
}

impl Default for Value {
    ghost use Rattle.value_type.specs.declared.value.Value.TheVariants.{Top};

    ghost is_default = { λ value. value ≡ Top };

    fn default() -> Value {
        Value::Top
    }
}
