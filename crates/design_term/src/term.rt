use design_model::{CatRow, Expr};
use order_core::{Boxed, List};
use value_type::Kind;

/// A bound on one place of an output: the value there is at least that of an expression.
#[derive(Drop)]
pub struct Target {
    /// A place of the output.
    pub place: u32,
    /// What its value is at least. The expression reads places of the input, as own ports.
    pub lower: Expr,
}

/// A term without inner terms.
#[derive(Drop)]
pub enum Primitive {
    /// An output is at least the input's values at some places.
    Keep {
        /// The types of an output.
        kinds: List<Kind>,
        /// A place of the input for each place of an output.
        places: List<u32>,
    },
    /// An output is at least what one of the rows requires, where that row provides at least the input.
    Rows {
        /// The types of an input.
        provided: List<Kind>,
        /// The types of an output.
        required: List<Kind>,
        rows: List<CatRow>,
    },
    /// An output meets each target. A place may have several targets, or none.
    Above {
        /// The types of an output.
        kinds: List<Kind>,
        targets: List<Target>,
    },
}

/// A relation between an input row and output rows, put together from primitive ones.
#[derive(Drop)]
pub enum Term {
    Prim(Primitive),
    /// The inner term, which stands for a part of a net.
    Sub {
        /// The number of the part.
        part: u32,
        inner: Boxed<Term>,
    },
    /// The first term, and then the second at an output of the first.
    Series(Boxed<Term>, Boxed<Term>),
    /// Both terms at the same input: an output of the first, followed by one of the second.
    Par(Boxed<Term>, Boxed<Term>),
    /// Any one of the terms.
    Alt(List<Term>),
    /// An output is the last of a chain of rising states: at the input followed by a state, the body gives the next one.
    Loop {
        /// The types of a state.
        state: List<Kind>,
        body: Boxed<Term>,
    },
}
