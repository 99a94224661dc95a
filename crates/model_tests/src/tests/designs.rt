ghost use Rattle.std.specs.Prelude.{◌≡◌, IfOk, map};

use super::{NUMBERS, expect, text};
use design_model::{
    CatRow, Constraint, Design, Expr, Greater, Part, PartWitness, Witness, above, holds, value_of,
};
use order_core::{Boxed, List, NoMemory};
use std::alloc::{AllocError, Global};
use std::cmp::Ordering;
use std::test::Fail;
use unit_core::Fraction;
use value_type::{Kind, Port, PortUnit, Row, Types, Value, print_order};

fn no_types(alloc: Global) -> Types {
    Types {
        posets: List::of(Vec::new(alloc)),
    }
}

/// The row of one count.
fn row(alloc: Global, count: u64) -> Result<Row, NoMemory> {
    match vec![in alloc; Value::Num(count)] {
        Ok(values) => Row::of(alloc, List::of(values)),
        Err(_) => Err(NoMemory),
    }
}

/// A form of an expression.
#[derive(Clone, Copy)]
enum Form {
    Own,
    Inner,
    Constant,
    Scale,
    Sum,
    Product,
    Greatest,
    Lesser,
}

/// The own port.
fn own(alloc: Global) -> Result<Boxed<Expr>, NoMemory> {
    Boxed::of(alloc, Expr::Own(0))
}

/// The port of the part.
fn inner(alloc: Global) -> Result<Boxed<Expr>, NoMemory> {
    Boxed::of(alloc, Expr::Inner(0, 0))
}

/// A third of the port of the part.
fn third(alloc: Global) -> Result<Expr, NoMemory> {
    match Fraction::new(1, 3) {
        Ok(third) => Ok(Expr::Scale(third, inner(alloc)?)),
        Err(_) => Err(NoMemory),
    }
}

/// The expression of this form, of the own port and the one of the part.
fn expr(alloc: Global, form: Form) -> Result<Expr, NoMemory> {
    match form {
        Form::Own => Ok(Expr::Own(0)),
        Form::Inner => Ok(Expr::Inner(0, 0)),
        Form::Constant => Ok(Expr::Constant(Value::Num(7))),
        Form::Scale => third(alloc),
        Form::Sum => Ok(Expr::Sum(own(alloc)?, inner(alloc)?)),
        Form::Product => Ok(Expr::Product(own(alloc)?, inner(alloc)?)),
        Form::Greatest => Ok(Expr::Greatest(own(alloc)?, inner(alloc)?)),
        Form::Lesser => Ok(Expr::Lesser(own(alloc)?, inner(alloc)?)),
    }
}

/// What the forms are worth where the own port carries 3 and that of the part 5.
const WORTH: [(Form, u64); 8] = [
    (Form::Own, 3),
    (Form::Inner, 5),
    (Form::Constant, 7),
    (Form::Scale, 2),
    (Form::Sum, 8),
    (Form::Product, 15),
    (Form::Greatest, 5),
    (Form::Lesser, 3),
];

/// The tuple of the forms.
fn all_forms(alloc: Global) -> Result<Expr, Fail> {
    let mut parts = Vec::new(alloc);
    for (form, _) in &WORTH {
        parts.push(expr(alloc, *form)?)?;
    }
    Ok(Expr::Tuple(List::of(parts)))
}

/// What it is worth.
fn all_worth(alloc: Global) -> Result<Value, Fail> {
    let mut parts = Vec::new(alloc);
    for (_, count) in &WORTH {
        parts.push(Value::Num(*count))?;
    }
    Ok(Value::Tup(List::of(parts)))
}

/// Its type.
fn all_numbers(alloc: Global) -> Result<Kind, Fail> {
    let mut parts = Vec::new(alloc);
    for _ in &WORTH {
        parts.push(NUMBERS)?;
    }
    Ok(Kind::Prod(List::of(parts)))
}

/// What the parts require.
fn required(alloc: Global, parts: &[PartWitness]) -> Result<List<Row>, NoMemory>
    ensures { IfOk result (λ made. made ≡ map (λ w. w.required) parts.now) }
{
    let mut rows = Vec::new(alloc);
    for part in parts {
        if rows.push(part.required.copy(alloc)?).is_err() {
            return Err(NoMemory);
        }
    }
    Ok(List::of(rows))
}

/// The values that the ports carry.
#[derive(Drop)]
struct Carried {
    own: Row,
    parts: List<PartWitness>,
}

/// Whether the value is at least the expression, and the expression is this value.
fn is_worth(alloc: Global, expr: &Expr, at: &Carried, kind: &Kind, want: &Value) -> bool {
    if !above(&no_types(alloc), kind, want, expr, &at.own, &at.parts) {
        return false;
    }
    let Ok(inner) = required(alloc, at.parts.items()) else {
        return false;
    };
    match value_of(alloc, expr, &at.own, &inner) {
        Ok(value) => print_order(&value, want) == Ordering::Equal,
        Err(_) => false,
    }
}

/// Whether a copy is.
fn is_copied_worth(alloc: Global, expr: &Expr, at: &Carried, kind: &Kind, want: &Value) -> bool {
    match expr.copy(alloc) {
        Ok(copy) => is_worth(alloc, &copy, at, kind, want),
        Err(_) => false,
    }
}

/// The own port carries 3, and that of the part 5.
fn carrying(alloc: Global) -> Result<Carried, Fail> {
    let part = PartWitness {
        provided: row(alloc, 0)?,
        required: row(alloc, 5)?,
        inner: Witness::Row(0),
    };
    Ok(Carried {
        own: row(alloc, 3)?,
        parts: List::of(vec![in alloc; part]?),
    })
}

#[test]
fn expressions_are_copied_and_have_values(rt: HostRuntime) -> Result<(), Fail> {
    let alloc = rt.alloc();
    let (at, expr) = (carrying(alloc)?, all_forms(alloc)?);
    let (kind, want) = (all_numbers(alloc)?, all_worth(alloc)?);
    expect(
        is_copied_worth(alloc, &expr, &at, &kind, &want),
        "another value",
    )
}

fn ports(alloc: Global) -> Result<List<Port>, AllocError> {
    let port = Port {
        name: text(alloc, "port")?,
        kind: NUMBERS,
        unit: PortUnit::Nat,
    };
    Ok(List::of(vec![in alloc; port]?))
}

/// A motor that lifts 145 and weighs 50.
fn motor(alloc: Global) -> Result<CatRow, Fail> {
    Ok(CatRow {
        name: text(alloc, "motor")?,
        provided: row(alloc, 145)?,
        required: row(alloc, 50)?,
    })
}

/// The catalogue of the one motor.
fn motors(alloc: Global) -> Result<Design, Fail> {
    Ok(Design::Cat {
        provides: ports(alloc)?,
        requires_: ports(alloc)?,
        rows: List::of(vec![in alloc; motor(alloc)?]?),
    })
}

fn part(alloc: Global, design: Design) -> Result<Part, AllocError> {
    Ok(Part {
        name: text(alloc, "part")?,
        design,
    })
}

/// The motor lifts the payload and itself, and the whole weighs what it does.
fn lifting(alloc: Global) -> Result<List<Constraint>, Fail> {
    let load = Constraint {
        greater: Greater::Inner(0, 0),
        lower: expr(alloc, Form::Sum)?,
    };
    let mass = Constraint {
        greater: Greater::Own(0),
        lower: Expr::Inner(0, 0),
    };
    Ok(List::of(vec![in alloc; load, mass]?))
}

/// The net in which a motor lifts a payload and itself.
fn lifter(alloc: Global) -> Result<Design, Fail> {
    let motors = part(alloc, motors(alloc)?)?;
    Ok(Design::Net {
        provides: ports(alloc)?,
        requires_: ports(alloc)?,
        parts: List::of(vec![in alloc; motors]?),
        constraints: lifting(alloc)?,
    })
}

/// The choice of a lifter alone.
fn choice(alloc: Global) -> Result<Design, Fail> {
    let lifter = part(alloc, lifter(alloc)?)?;
    Ok(Design::Choice {
        provides: ports(alloc)?,
        requires_: ports(alloc)?,
        branches: List::of(vec![in alloc; lifter]?),
    })
}

/// The motor, with all that it lifts.
fn parts_carry(alloc: Global) -> Result<List<PartWitness>, Fail> {
    let motor = PartWitness {
        provided: row(alloc, 145)?,
        required: row(alloc, 50)?,
        inner: Witness::Row(0),
    };
    Ok(List::of(vec![in alloc; motor]?))
}

/// What a design is asked for.
#[derive(Drop)]
struct Asked {
    types: Types,
    most: Row,
    more: Row,
    mass: Row,
}

/// Whether the design holds at `most` and the mass 50, and not at `more`.
fn is_held(design: &Design, witness: &Witness, at: &Asked) -> bool {
    holds(&at.types, design, &at.most, &at.mass, witness)
        && !holds(&at.types, design, &at.more, &at.mass, witness)
}

fn is_held_part(found: Result<Part, NoMemory>, witness: &Witness, at: &Asked) -> bool {
    match found {
        Ok(part) => is_held(&part.design, witness, at),
        Err(_) => false,
    }
}

fn is_held_design(found: Result<Design, NoMemory>, witness: &Witness, at: &Asked) -> bool {
    match found {
        Ok(design) => is_held(&design, witness, at),
        Err(_) => false,
    }
}

/// Whether copies of the part and of its design do.
fn is_held_copied(alloc: Global, part: &Part, witness: &Witness, at: &Asked) -> bool {
    is_held_part(part.copy(alloc), witness, at)
        && is_held_design(part.design.copy(alloc), witness, at)
}

fn ask(alloc: Global, most: u64, more: u64) -> Result<Asked, NoMemory> {
    Ok(Asked {
        types: no_types(alloc),
        most: row(alloc, most)?,
        more: row(alloc, more)?,
        mass: row(alloc, 50)?,
    })
}

#[test]
fn a_catalogue_holds(rt: HostRuntime) -> Result<(), Fail> {
    let part = part(rt.alloc(), motors(rt.alloc())?)?;
    let at = ask(rt.alloc(), 145, 146)?;
    let held = is_held_copied(rt.alloc(), &part, &Witness::Row(0), &at);
    expect(held, "the motors")
}

#[test]
fn a_net_holds(rt: HostRuntime) -> Result<(), Fail> {
    let part = part(rt.alloc(), lifter(rt.alloc())?)?;
    let at = ask(rt.alloc(), 95, 96)?;
    let lifted = Witness::Inner(parts_carry(rt.alloc())?);
    expect(
        is_held_copied(rt.alloc(), &part, &lifted, &at),
        "the lifter",
    )
}

/// The first branch, made by its motor.
fn chosen(alloc: Global) -> Result<Witness, Fail> {
    let lifted = Witness::Inner(parts_carry(alloc)?);
    Ok(Witness::Branch(0, Boxed::of(alloc, lifted)?))
}

#[test]
fn a_choice_holds(rt: HostRuntime) -> Result<(), Fail> {
    let part = part(rt.alloc(), choice(rt.alloc())?)?;
    let at = ask(rt.alloc(), 95, 96)?;
    let chosen = chosen(rt.alloc())?;
    expect(
        is_held_copied(rt.alloc(), &part, &chosen, &at),
        "the choice",
    )
}

/// Whether 145 is at least the expression, and 144 isn't.
fn is_145(alloc: Global, expr: &Expr, own: &Row, parts: &List<PartWitness>) -> bool {
    let types = no_types(alloc);
    above(&types, &NUMBERS, &Value::Num(145), expr, own, parts)
        && !above(&types, &NUMBERS, &Value::Num(144), expr, own, parts)
}

#[test]
fn a_value_is_above_a_sum(rt: HostRuntime) -> Result<(), Fail> {
    let alloc = rt.alloc();
    let sum = expr(alloc, Form::Sum)?;
    let own = row(alloc, 95)?;
    expect(is_145(alloc, &sum, &own, &parts_carry(alloc)?), "above")
}

/// Whether a copy of the row has its name.
fn is_copied_row(alloc: Global, row: &CatRow) -> bool {
    match row.copy(alloc) {
        Ok(copy) => copy.name.as_str() == "motor",
        Err(_) => false,
    }
}

/// Whether a copy of the constraint reads the port of the part.
fn is_copied_constraint(alloc: Global, constraint: &Constraint) -> bool {
    match constraint.copy(alloc) {
        Ok(copy) => matches!(&copy.lower, Expr::Inner(0, 0)),
        Err(_) => false,
    }
}

#[test]
fn rows_and_constraints_are_copied(rt: HostRuntime) -> Result<(), Fail> {
    let alloc = rt.alloc();
    expect(is_copied_row(alloc, &motor(alloc)?), "a row")?;
    let mass = Constraint {
        greater: Greater::Own(0),
        lower: Expr::Inner(0, 0),
    };
    expect(is_copied_constraint(alloc, &mass), "a constraint")
}
