use design_lexer::{BranchTree, NameAt, PortTree, RuleTree};
use order_core::{List, Text};

/// The power of a factor: its sign, what its digits stand for, and how they are written.
#[derive(Drop)]
pub struct Power {
    pub negative: bool,
    pub power: Option<u128>,
    pub written: Text,
}

/// A literal, as a value and an expression have it.
#[derive(Drop)]
pub enum Literal {
    Element {
        poset: NameAt,
        element: NameAt,
    },
    /// The upper set of the elements named.
    Upper {
        poset: NameAt,
        elements: List<NameAt>,
    },
}

/// An item of a net.
#[derive(Drop)]
pub enum NetItem {
    Port(PortTree),
    Part(BranchTree),
    Rule(RuleTree),
}

/// The items of a net by what they are, each kind in order.
#[derive(Drop)]
pub struct NetLists {
    pub ports: Vec<PortTree>,
    pub parts: Vec<BranchTree>,
    pub rules: Vec<RuleTree>,
}
