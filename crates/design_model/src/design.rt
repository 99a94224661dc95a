ghost use Rattle.std.specs.Prelude.{◌≡◌, IfOk, slice_get};
ghost use Rattle.std.specs.Option.{option_copied};

use crate::copy::copy_design;
use crate::expr::Constraint;
use order_core::{List, NoMemory, Text};
use std::alloc::Global;
use value_type::{Port, Row};

/// A row of a catalogue: what one implementation provides and requires.
#[derive(Drop)]
pub struct CatRow {
    pub name: Text,
    /// One value for each provided port.
    pub provided: Row,
    /// One value for each required port.
    pub required: Row,
}

impl CatRow {
    /// A row equal to this one.
    pub fn copy(&self, alloc: Global) -> Result<CatRow, NoMemory>
        ensures { IfOk result (λ made. made ≡ self.now) }
    {
        Ok(CatRow {
            name: self.name.copy(alloc)?,
            provided: self.provided.copy(alloc)?,
            required: self.required.copy(alloc)?,
        })
    }
}

/// A branch of a choice, or a part of a net.
#[cycle(design)]
#[derive(Drop)]
pub struct Part {
    pub name: Text,
    pub design: Design,
}

/// A design: something that provides functionality and requires resources.
#[cycle(design)]
#[derive(Drop)]
pub enum Design {
    /// A catalogue of implementations.
    Cat {
        provides: List<Port>,
        requires_: List<Port>,
        rows: List<CatRow>,
    },
    /// A choice between designs with the same ports.
    Choice {
        provides: List<Port>,
        requires_: List<Port>,
        branches: List<Part>,
    },
    /// A net of parts, joined by constraints.
    Net {
        provides: List<Port>,
        requires_: List<Port>,
        parts: List<Part>,
        constraints: List<Constraint>,
    },
}

impl Part {
    /// A part equal to this one.
    pub fn copy(&self, alloc: Global) -> Result<Part, NoMemory>
        ensures { IfOk result (λ made. made ≡ self.now) }
    {
        Ok(Part {
            name: self.name.copy(alloc)?,
            design: self.design.copy(alloc)?,
        })
    }
}

impl Design {
    ghost use Rattle.design_model.specs.Parts.{provided_ports, required_ports, rows_of};

    /// The provided ports.
    pub fn provided_ports(&self) -> &[Port]
        ensures { result.now ≡ provided_ports self.now }
    {
        match self {
            Design::Cat { provides, .. } => provides.items(),
            Design::Choice { provides, .. } => provides.items(),
            Design::Net { provides, .. } => provides.items(),
        }
    }

    /// The required ports.
    pub fn required_ports(&self) -> &[Port]
        ensures { result.now ≡ required_ports self.now }
    {
        match self {
            Design::Cat { requires_, .. } => requires_.items(),
            Design::Choice { requires_, .. } => requires_.items(),
            Design::Net { requires_, .. } => requires_.items(),
        }
    }

    /// A design equal to this one.
    pub fn copy(&self, alloc: Global) -> Result<Design, NoMemory>
        ensures { IfOk result (λ made. made ≡ self.now) }
    {
        copy_design(alloc, self)
    }

    /// The rows of a catalogue. Another design has none.
    pub fn rows(&self) -> &[CatRow]
        ensures { result.now ≡ rows_of self.now }
    {
        match self {
            Design::Cat { rows, .. } => rows.items(),
            Design::Choice { .. } => &[],
            Design::Net { .. } => &[],
        }
    }
}
