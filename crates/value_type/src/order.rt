ghost use Rattle.std.specs.Prelude.{◌≡◌, IfOk};
ghost use Rattle.value_type.specs.Fits.{fits, row_fits};
ghost use Rattle.value_type.specs.KindOrderLaws.{kind_laws, row_laws};
ghost use Rattle.value_type.specs.Leq.{leq, row_leq};

use crate::bounds::{bounds_of, row_bounds};
use crate::fits::fits_all;
use crate::kind::Kind;
use crate::least::{least_of, least_rows};
use crate::leq::leq_all;
use crate::poset::Types;
use crate::row::{Row, rows_of};
use crate::value::Value;
use order_core::{List, NoMemory, Order};
use std::alloc::Global;

/// The values of one type, in order.
#[derive(Drop)]
pub struct ValueOrder<'t, 'k> {
    pub types: &'t Types,
    pub kind: &'k Kind,
}

impl<'t, 'k> Order for ValueOrder<'t, 'k> {
    type Item = Value;

    ghost is_value = { λ o. fits o.types.now o.kind.now };

    ghost leq = { λ o. leq o.types.now o.kind.now };

    fn is_value(&self, a: &Value) -> bool {
        self.types.fits(self.kind, a)
    }

    fn leq(&self, a: &Value, b: &Value) -> bool {
        self.types.leq(self.kind, a, b)
    }

    fn copy(&self, alloc: Global, a: &Value) -> Result<Value, NoMemory> {
        a.copy(alloc)
    }

    fn least(&self, alloc: Global) -> Result<List<Value>, NoMemory> {
        least_of(alloc, self.types, self.kind)
    }

    fn bounds(&self, alloc: Global, a: &Value, b: &Value) -> Result<List<Value>, NoMemory> {
        bounds_of(alloc, self.types, self.kind, a, b)
    }

    ghost laws = { λ o. kind_laws o.types.now o.kind.now };
}

/// Rows with one value of each of these types, ordered value by value.
#[derive(Drop)]
pub struct RowOrder<'a> {
    pub types: &'a Types,
    pub kinds: List<Kind>,
}

impl<'a> Order for RowOrder<'a> {
    type Item = Row;

    ghost is_value = { λ o. row_fits o.types.now o.kinds };

    ghost leq = { λ o. row_leq o.types.now o.kinds };

    fn is_value(&self, a: &Row) -> bool {
        fits_all(self.types, self.kinds.items(), a.values())
    }

    #[inline(always)]
    fn leq(&self, a: &Row, b: &Row) -> bool {
        leq_all(self.types, self.kinds.items(), a.values(), b.values())
    }

    fn copy(&self, alloc: Global, a: &Row) -> Result<Row, NoMemory> {
        a.copy(alloc)
    }

    fn least(&self, alloc: Global) -> Result<List<Row>, NoMemory> {
        rows_of(alloc, least_rows(alloc, self.types, self.kinds.items())?)
    }

    fn bounds(&self, alloc: Global, a: &Row, b: &Row) -> Result<List<Row>, NoMemory> {
        rows_of(
            alloc,
            row_bounds(
                alloc,
                self.types,
                self.kinds.items(),
                a.values(),
                b.values(),
            )?,
        )
    }

    ghost laws = { λ o. row_laws o.types.now o.kinds };
}

/// Rows with one value of each of some types that others own, ordered value by value.
#[derive(Drop)]
pub struct RowOrderRef<'t, 'k> {
    pub types: &'t Types,
    pub kinds: &'k [Kind],
}

impl<'t, 'k> Order for RowOrderRef<'t, 'k> {
    type Item = Row;

    ghost is_value = { λ o. row_fits o.types.now o.kinds.now };

    ghost leq = { λ o. row_leq o.types.now o.kinds.now };

    fn is_value(&self, a: &Row) -> bool {
        fits_all(self.types, self.kinds, a.values())
    }

    #[inline(always)]
    fn leq(&self, a: &Row, b: &Row) -> bool {
        leq_all(self.types, self.kinds, a.values(), b.values())
    }

    fn copy(&self, alloc: Global, a: &Row) -> Result<Row, NoMemory> {
        a.copy(alloc)
    }

    fn least(&self, alloc: Global) -> Result<List<Row>, NoMemory> {
        rows_of(alloc, least_rows(alloc, self.types, self.kinds)?)
    }

    fn bounds(&self, alloc: Global, a: &Row, b: &Row) -> Result<List<Row>, NoMemory> {
        rows_of(
            alloc,
            row_bounds(alloc, self.types, self.kinds, a.values(), b.values())?,
        )
    }

    ghost laws = { λ o. row_laws o.types.now o.kinds.now };
}
