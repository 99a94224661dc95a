use crate::witness::Witness;
use order_core::List;
use value_type::Row;

/// A row of required values, and how the design is made for it, where that is known.
#[derive(Drop)]
pub struct Point {
    pub at: Row,
    pub witness: Option<Witness>,
}

/// A net that is not steady in the rounds that were given.
#[derive(Drop)]
pub struct Unsteady {
    /// The numbers of the branches and parts that lead to it.
    pub path: List<u32>,
    /// What it is asked to provide.
    pub at: Row,
    /// A state that ends a chain of one step fewer than the rounds, and none of as many.
    pub state: Row,
}

/// The least resources for a query, as far as the rounds tell.
#[derive(Drop)]
pub struct Solved {
    pub points: List<Point>,
    pub unsteady: Option<Unsteady>,
}
