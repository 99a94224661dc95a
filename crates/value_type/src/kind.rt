ghost use Rattle.std.specs.Prelude.{◌≡◌, ◌↔◌, IsTrue, true, IfOk};

use crate::copy::{copy_all_kinds, copy_kind, copy_value};
use crate::same::same_kind;
use crate::value::Value;
use order_core::{Copier, List, NoMemory};
use std::alloc::Global;
use unit_core::Dim;

/// A type of values.
#[derive(Debug, Drop)]
pub enum Kind {
    /// Numbers that count units of this dimension.
    Num(Dim),
    /// The elements of the poset of this number.
    Fin(u32),
    /// Tuples with one value of each of these types.
    Prod(List<Kind>),
    /// The upper sets of the poset of this number.
    Up(u32),
}

impl Kind {
    /// A type equal to this one.
    pub fn copy(&self, alloc: Global) -> Result<Kind, NoMemory>
        ensures { IfOk result (λ made. made ≡ self.now) }
    {
        copy_kind(alloc, self)
    }

    /// Whether both types are the same.
    pub fn is_same(&self, other: &Kind) -> bool
        ensures { IsTrue result ↔ (self.now ≡ other.now) }
    {
        same_kind(self, other)
    }
}

/// Types equal to these, in order.
pub fn copy_kinds(alloc: Global, kinds: &[Kind]) -> Result<List<Kind>, NoMemory>
    ensures { IfOk result (λ made. made ≡ kinds.now) }
{
    Ok(List::of(copy_all_kinds(alloc, kinds)?))
}

impl Copier for Kind {
    type Item = Value;

    ghost can_copy = { λ kind value. true };

    fn copy_of(&self, alloc: Global, a: &Value) -> Result<Value, NoMemory> {
        copy_value(alloc, a)
    }
}
