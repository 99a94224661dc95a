use order_core::{Boxed, List};
use value_type::Row;

/// How a design is made: the choice of an implementation.
#[cycle(witness)]
#[derive(Drop)]
pub enum Witness {
    /// The row of a catalogue, counted from 0.
    Row(u32),
    /// The branch of a choice, counted from 0, and how it is made.
    Branch(u32, Boxed<Witness>),
    /// What each part of a net carries, and how it is made.
    Inner(List<PartWitness>),
}

/// What a part of a net carries at its ports, and how it is made.
#[cycle(witness)]
#[derive(Drop)]
pub struct PartWitness {
    pub provided: Row,
    pub required: Row,
    pub inner: Witness,
}
