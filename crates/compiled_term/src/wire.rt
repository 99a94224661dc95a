use design_model::Expr;
use value_type::Kind;

/// A wire carries values of a type from one part of a net to the next. Expressions read it by its number, as an own
/// port.
#[derive(Drop)]
pub struct Wire {
    pub number: u32,
    pub kind: Kind,
}

/// A wire after a part, and its value over the wires before and the part's required ports.
#[derive(Drop)]
pub struct WireValue {
    pub wire: Wire,
    pub lower: Expr,
}
