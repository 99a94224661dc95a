ghost use Rattle.std.specs.Prelude.{◌≡◌, map};
ghost use Rattle.std.specs.Option.{option_copied};
ghost use Rattle.design_model.specs.ValueOf.{Reads, reads_of};

use crate::witness::PartWitness;
use order_core::List;
use value_type::{Row, Value};

/// What an expression reads.
pub trait Reading {
    /// The values of the ports.
    ghost reads: { Self → Reads };

    /// The value of an own provided port, if it is there.
    fn own(&self, port: u32) -> Option<&Value>
        ensures { option_copied result ≡ (reads self.now).own port };

    /// The value of a required port of a part, if it is there.
    fn inner(&self, part: u32, port: u32) -> Option<&Value>
        ensures { option_copied result ≡ (reads self.now).inner part port };
}

/// Ports that carry rows: the own provided ones, and the required ones of each part.
#[derive(Drop)]
pub struct Rows<'a> {
    pub own: &'a Row,
    pub inner: &'a List<Row>,
}

impl<'a> Reading for Rows<'a> {
    ghost reads = { λ rows. reads_of rows.own.now rows.inner.now };

    fn own(&self, port: u32) -> Option<&Value> {
        self.own.get(port as usize)
    }

    fn inner(&self, part: u32, port: u32) -> Option<&Value> {
        match self.inner.get(part as usize) {
            Some(row) => row.get(port as usize),
            None => None,
        }
    }
}

/// Ports that carry what witnesses of the parts say.
#[derive(Drop)]
pub struct Witnessed<'a> {
    pub own: &'a Row,
    pub parts: &'a List<PartWitness>,
}

impl<'a> Reading for Witnessed<'a> {
    ghost reads = { λ it. reads_of it.own.now (map (λ w. w.required) it.parts.now) };

    fn own(&self, port: u32) -> Option<&Value> {
        self.own.get(port as usize)
    }

    fn inner(&self, part: u32, port: u32) -> Option<&Value> {
        match self.parts.get(part as usize) {
            Some(witness) => witness.required.get(port as usize),
            None => None,
        }
    }
}
