use compiled_term::Wire;
use design_model::Constraint;

/// What stands before a part of a net is worked out.
#[derive(Drop)]
pub struct Standing {
    pub wires: Vec<Wire>,
    /// The number of the next new wire.
    pub next: u32,
    /// The constraints on parts that are left and on the next state. They read wires as own ports.
    pub waiting: Vec<Constraint>,
}
