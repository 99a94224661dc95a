/// How wires are numbered where an expression is taken apart.
#[derive(Debug, Clone, Copy, PartialEq, Eq)]
pub struct Frame {
    /// Wires of lower numbers carry what a net is given, the same in every outcome.
    pub start: u32,
    /// The part whose required ports are carried now.
    pub part: u32,
    /// The wire of that part's first required port. Those of the others follow it.
    pub from: u32,
    /// The first new wire.
    pub next: u32,
}
