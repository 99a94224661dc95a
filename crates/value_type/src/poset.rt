ghost use Rattle.std.specs.Prelude.{◌≡◌};

use crate::fits::fits;
use crate::kind::Kind;
use crate::leq::leq;
use crate::value::Value;
use order_core::{FiniteOrder, List, Text};

/// A finite poset with the names of its elements.
#[derive(Drop)]
pub struct Poset {
    pub name: Text,
    /// The names of the elements, by number.
    pub elements: List<Text>,
    pub order: FiniteOrder,
}

/// The posets that types speak of, by number.
#[derive(Drop)]
pub struct Types {
    pub posets: List<Poset>,
}

impl Types {
    ghost use Rattle.value_type.specs.Fits.{fits};
    ghost use Rattle.value_type.specs.Leq.{leq};

    /// Whether the value is one of this type. A type that names no poset has none.
    pub fn fits(&self, kind: &Kind, value: &Value) -> bool
        ensures { result ≡ fits self.now kind.now value.now }
    {
        fits(self, kind, value)
    }

    /// Whether `a` is at most `b` as values of this type. Values of different forms never are.
    pub fn leq(&self, kind: &Kind, a: &Value, b: &Value) -> bool
        ensures { result ≡ leq self.now kind.now a.now b.now }
    {
        leq(self, kind, a, b)
    }
}
