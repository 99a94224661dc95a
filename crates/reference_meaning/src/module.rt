use design_model::{CatRow, Constraint};
use order_core::{List, Text};
use value_type::Port;

/// A reference whose names are numbers.
#[derive(Drop)]
pub enum Resolved {
    /// The parameter of this number of the template in which the reference stands.
    Parameter(u32),
    /// The module of this number, with an argument for each of its parameters, in order.
    Module {
        number: u32,
        arguments: List<Resolved>,
    },
}

/// A branch of a choice or an instance of a net: its name, and what it refers to.
#[derive(Drop)]
pub struct Link {
    pub name: Text,
    pub reference: Resolved,
}

/// What a module is made of.
#[derive(Drop)]
pub enum ModuleBody {
    Catalogue(List<CatRow>),
    /// Its branches, in order.
    Choice(List<Link>),
    /// Its instances and its constraints, in order.
    Net {
        parts: List<Link>,
        constraints: List<Constraint>,
    },
}

/// A design or a template. The ports are its own; a choice has none of its own.
#[derive(Drop)]
pub struct Module {
    pub provides: List<Port>,
    pub requires_: List<Port>,
    pub body: ModuleBody,
}
