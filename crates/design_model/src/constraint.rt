ghost use Rattle.std.specs.Prelude.{◌≡◌, ◌↔◌, IsTrue, map, slice_get};
ghost use Rattle.std.specs.Option.{option_copied};
ghost use Rattle.value_type.specs.PortKinds.{port_kinds};
ghost use Rattle.design_model.specs.Above.{is_at_least};
ghost use Rattle.design_model.specs.Holds.{AllSatisfied, carried_by};
ghost use Rattle.design_model.specs.ValueOf.{value_of, reads_of};
ghost use Rattle.design_model.specs.Wiring.{wiring_of, Satisfied, greater_kind, greater_value, required_rows};

use crate::comparing::above;
use crate::design::Part;
use crate::expr::{Constraint, Expr, Greater};
use crate::witness::PartWitness;
use order_core::List;
use value_type::{Kind, Port, Row, Types, Value};

/// A net, and what its own ports and its parts carry.
#[derive(Drop)]
pub struct Assignment<'a> {
    pub provides: &'a List<Port>,
    pub requires_: &'a List<Port>,
    pub parts: &'a List<Part>,
    pub constraints: &'a List<Constraint>,
    pub f: &'a Row,
    pub r: &'a Row,
    pub witnesses: &'a List<PartWitness>,
}

/// Whether each constraint is satisfied.
pub fn all_satisfied(types: &Types, at: &Assignment) -> bool
    ensures { IsTrue result ↔ AllSatisfied types.now (wiring_of (λ p. p) at.now.provides.now at.now.requires_.now at.now.parts.now at.now.constraints.now) at.now.f.now at.now.r.now (map carried_by at.now.witnesses.now) }
{
    for constraint in at.constraints.items() {
        if !satisfied(types, at, constraint) {
            return false;
        }
    }
    true
}

fn satisfied(types: &Types, at: &Assignment, constraint: &Constraint) -> bool
    ensures { IsTrue result ↔ Satisfied types.now (wiring_of (λ p. p) at.now.provides.now at.now.requires_.now at.now.parts.now at.now.constraints.now) at.now.r.now (map carried_by at.now.witnesses.now) (reads_of at.now.f.now (required_rows (map carried_by at.now.witnesses.now))) constraint.now }
{
    let kind = greater_kind(at, &constraint.greater);
    let value = greater_value(at, &constraint.greater);
    at_least(types, kind, value, &constraint.lower, at)
}

/// Whether the port and the value are there, and the value is at least that of the expression.
fn at_least(
    types: &Types,
    kind: Option<&Kind>,
    value: Option<&Value>,
    lower: &Expr,
    at: &Assignment,
) -> bool
    ensures { result ≡ is_at_least types.now (option_copied kind.entry) (option_copied value.entry) (value_of lower.now (reads_of at.now.f.now (map (λ w. w.required) at.now.witnesses.now))) }
{
    match kind {
        Some(kind) => match value {
            Some(value) => above(types, kind, value, lower, at.f, at.witnesses),
            None => false,
        },
        None => false,
    }
}

/// The type of the port on the greater side, if it is there.
fn greater_kind<'a>(at: &'a Assignment, greater: &Greater) -> Option<&'a Kind>
    ensures { option_copied result ≡ greater_kind (wiring_of (λ p. p) at.now.provides.now at.now.requires_.now at.now.parts.now at.now.constraints.now) greater.now }
{
    match greater {
        Greater::Own(port) => kind_of(at.requires_.items(), *port),
        Greater::Inner(part, port) => match at.parts.get(*part as usize) {
            Some(part) => kind_of(part.design.provided_ports(), *port),
            None => None,
        },
    }
}

/// The type of the port of this number, if it is there.
fn kind_of(ports: &[Port], port: u32) -> Option<&Kind>
    ensures { option_copied result ≡ slice_get (port_kinds ports.now) port }
{
    match ports.get(port as usize) {
        Some(port) => Some(&port.kind),
        None => None,
    }
}

/// What the port on the greater side carries, if it is there.
fn greater_value<'a>(at: &'a Assignment, greater: &Greater) -> Option<&'a Value>
    ensures { option_copied result ≡ greater_value at.now.r.now (map carried_by at.now.witnesses.now) greater.now }
{
    match greater {
        Greater::Own(port) => at.r.get(*port as usize),
        Greater::Inner(part, port) => match at.witnesses.get(*part as usize) {
            Some(witness) => witness.provided.get(*port as usize),
            None => None,
        },
    }
}
