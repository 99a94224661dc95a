use order_core::{Boxed, List, Text};

/// A name, and the place of its first byte.
#[derive(Drop)]
pub struct NameAt {
    pub name: Text,
    pub at: u64,
}

/// A number as its digits say without the point, and how many of them follow the point.
#[derive(Clone, Copy, Debug, PartialEq, Eq)]
pub struct Number {
    pub digits: u128,
    pub decimals: u8,
}

/// A factor of a unit.
#[derive(Drop)]
pub struct FactorTree {
    /// Whether `/` stands before it.
    pub divided: bool,
    pub name: NameAt,
    /// Whether `-` stands before its power.
    pub negative: bool,
    pub power: Option<u128>,
    /// The digits of the power as they are written. Where it has no power there are none.
    pub written: Text,
}

/// A number, or a quotient of two, and its unit.
#[derive(Drop)]
pub struct ConstantTree {
    pub over: Number,
    pub under: Option<Number>,
    pub unit: List<FactorTree>,
    pub at: u64,
}

/// The type of a port.
#[derive(Drop)]
pub enum TypeTree {
    Nat,
    Unit(List<FactorTree>),
    Poset(NameAt),
    Up(NameAt),
    Product(List<TypeTree>),
}

/// The side of a design that a port stands on.
#[derive(Clone, Copy, Debug, PartialEq, Eq)]
pub enum Side {
    Provides,
    Requires,
}

/// A port. Its place is that of the first token of its type.
#[derive(Drop)]
pub struct PortTree {
    pub side: Side,
    pub name: NameAt,
    pub kind: TypeTree,
    pub at: u64,
}

/// A value, as a row or a query writes it.
#[derive(Drop)]
pub enum ValueTree {
    Top {
        at: u64,
    },
    Constant(ConstantTree),
    Element {
        poset: NameAt,
        element: NameAt,
    },
    /// The upper set of the elements named.
    Upper {
        poset: NameAt,
        elements: List<NameAt>,
    },
    Tuple {
        at: u64,
        parts: List<ValueTree>,
    },
}

/// A port of the net itself, or a part and a port of it.
#[derive(Drop)]
pub struct PlaceTree {
    pub first: NameAt,
    pub second: Option<NameAt>,
}

/// An expression. Round brackets leave no node.
#[derive(Drop)]
pub enum ExprTree {
    Constant(ConstantTree),
    Place(PlaceTree),
    Element {
        poset: NameAt,
        element: NameAt,
    },
    /// The upper set of the elements named.
    Upper {
        poset: NameAt,
        elements: List<NameAt>,
    },
    /// A sum. Its place is that of its left operand.
    Sum {
        left: Boxed<ExprTree>,
        right: Boxed<ExprTree>,
        at: u64,
    },
    /// A product. Its place is that of its left operand.
    Product {
        left: Boxed<ExprTree>,
        right: Boxed<ExprTree>,
        at: u64,
    },
    Greatest {
        left: Boxed<ExprTree>,
        right: Boxed<ExprTree>,
        at: u64,
    },
    Lesser {
        left: Boxed<ExprTree>,
        right: Boxed<ExprTree>,
        at: u64,
    },
    Tuple {
        parts: List<ExprTree>,
        at: u64,
    },
}

/// An argument for a parameter of a template.
#[cycle(reference)]
#[derive(Drop)]
pub struct ArgTree {
    pub name: NameAt,
    pub reference: RefTree,
}

/// A reference to a design, a template or a parameter.
#[cycle(reference)]
#[derive(Drop)]
pub struct RefTree {
    pub name: NameAt,
    pub arguments: List<ArgTree>,
}

/// A rule of a net.
#[derive(Drop)]
pub enum RuleTree {
    /// The port carries at least the value of the expression.
    Above { place: PlaceTree, lower: ExprTree },
    /// The port may stay unconnected.
    Ignore(PlaceTree),
}

/// A row of a catalogue.
#[derive(Drop)]
pub struct RowTree {
    pub name: NameAt,
    pub provided: List<ValueTree>,
    pub required: List<ValueTree>,
}

/// A branch of a choice, or an instance of a net.
#[derive(Drop)]
pub struct BranchTree {
    pub name: NameAt,
    pub reference: RefTree,
}

/// A parameter of a template, and the interface that its argument has.
#[derive(Drop)]
pub struct ParamTree {
    pub name: NameAt,
    pub interface: NameAt,
}

/// The body of a design or a template.
#[derive(Drop)]
pub enum BodyTree {
    Catalogue {
        ports: List<PortTree>,
        rows: List<RowTree>,
        table: Option<NameAt>,
    },
    Choose(List<BranchTree>),
    /// A net. Its parts are its instances, in order.
    Net {
        ports: List<PortTree>,
        parts: List<BranchTree>,
        rules: List<RuleTree>,
    },
}

/// A poset: its elements, and chains of them, the least of each first.
#[derive(Drop)]
pub struct PosetTree {
    pub elements: List<NameAt>,
    pub chains: List<List<NameAt>>,
}

/// What a file is.
#[derive(Drop)]
pub enum File {
    Poset(PosetTree),
    Interface(List<PortTree>),
    Design(BodyTree),
    Template(List<ParamTree>, BodyTree),
}
