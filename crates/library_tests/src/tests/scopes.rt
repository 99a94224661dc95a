use super::library::{Listed, Wanted, beside, built, is_wanted, typed};
use design_lexer::{BodyTree, ExprTree, File, PortTree, RuleTree};
use design_model::Expr;
use fault_list::{FaultKind, StageFault};
use name_table::port_of;
use side_ports::SidePorts;
use std::alloc::{AllocError, Global};
use std::test::Fail;
use unit_check::{Scope, lower_of, scope_of};
use value_type::{Kind, Port, PortUnit, Value};

/// Interfaces of one port, and how it's shown, or what is first wrong with it.
const PORTS: [(&[u8], Result<&str, (FaultKind, u64)>); 48] = [
    (
        b"interface { provides x [Nat]; }",
        Ok("x: number 0 0 0 0 0 0, Nat"),
    ),
    (
        b"interface { provides x [g/g]; }",
        Ok("x: number 0 0 0 0 0 0, g/g of 1"),
    ),
    (
        b"interface { requires y [s^02]; }",
        Ok("y: number 0 0 2 0 0 0, s^02 of 1"),
    ),
    (
        b"interface { provides x [kg . m / s ^ 2]; }",
        Ok("x: number 1 1 -2 0 0 0, kg.m/s^2 of 1000000"),
    ),
    (
        b"interface { provides x [kg/m^-00.cent]; }",
        Ok("x: number 1 0 0 0 1 0, kg/m^-00.cent of 1000"),
    ),
    (
        b"interface { provides _2 [min^9]; }",
        Ok("_2: number 0 0 9 0 0 0, min^9 of 10077696000000000"),
    ),
    (
        b"interface { provides x [V.A.bit/Hz]; }",
        Ok("x: number 1 2 -2 0 0 1, V.A.bit/Hz of 1000000000"),
    ),
    (
        b"interface { provides x [mg.kg]; }",
        Ok("x: number 2 0 0 0 0 0, mg.kg of 1"),
    ),
    (
        b"interface { provides x [s^-9.s^9]; }",
        Ok("x: number 0 0 0 0 0 0, s^-9.s^9 of 1"),
    ),
    (
        b"interface { provides x [kg^6/kg^6]; }",
        Ok("x: number 0 0 0 0 0 0, kg^6/kg^6 of 1"),
    ),
    (
        b"interface { provides x [t^3.cm]; }",
        Ok("x: number 3 1 0 0 0 0, t^3.cm of 10000000000000000000"),
    ),
    (
        b"interface { requires y [poset q]; }",
        Ok("y: element 1, poset"),
    ),
    (b"interface { provides x [up p]; }", Ok("x: upper 0, poset")),
    (
        b"interface { provides x [product(kg, product(up q, Nat), poset p)]; }",
        Ok(
            "x: <number 1 0 0 0 0 0;<upper 1;number 0 0 0 0 0 0;>;element 0;>, <kg of 1000;<poset;Nat;>;poset;>",
        ),
    ),
    (
        b"interface { provides x [s^10]; }",
        Err((FaultKind::Exponent, 24)),
    ),
    (
        b"interface { provides x [s^-10]; }",
        Err((FaultKind::Exponent, 24)),
    ),
    (
        b"interface { provides x [s^010]; }",
        Err((FaultKind::Exponent, 24)),
    ),
    (
        b"interface { provides x [s^18446744073709551616]; }",
        Err((FaultKind::Exponent, 24)),
    ),
    (
        b"interface { provides x [g^9.g]; }",
        Err((FaultKind::Exponent, 24)),
    ),
    (
        b"interface { provides x [g^9.g/g]; }",
        Err((FaultKind::Exponent, 24)),
    ),
    (
        b"interface { provides x [g^-5/g^5]; }",
        Err((FaultKind::Exponent, 24)),
    ),
    (
        b"interface { provides x [s^5/s^-5]; }",
        Err((FaultKind::Exponent, 24)),
    ),
    (
        b"interface { provides x [Hz^9/s]; }",
        Err((FaultKind::Exponent, 24)),
    ),
    (
        b"interface { provides x [kg.s^10]; }",
        Err((FaultKind::Exponent, 24)),
    ),
    (
        b"interface { provides x [m^10.kg^9]; }",
        Err((FaultKind::Exponent, 24)),
    ),
    (
        b"interface { provides x [product(Nat, s^10)]; }",
        Err((FaultKind::Exponent, 37)),
    ),
    (
        b"interface { provides x [product(s^10, t^4)]; }",
        Err((FaultKind::Exponent, 32)),
    ),
    (
        b"interface { provides x [product(Nat, kg.s^10)]; }",
        Err((FaultKind::Exponent, 37)),
    ),
    (
        b"interface { provides x [product(g, product(s^2, s^10), t^4)]; }",
        Err((FaultKind::Exponent, 48)),
    ),
    (
        b"interface { provides x [t^4]; }",
        Err((FaultKind::ConstantRange, 24)),
    ),
    (
        b"interface { provides x [t^3.t/t]; }",
        Err((FaultKind::ConstantRange, 24)),
    ),
    (
        b"interface { provides x [kg^7/kg^7]; }",
        Err((FaultKind::ConstantRange, 24)),
    ),
    (
        b"interface { provides x [kg.t^4]; }",
        Err((FaultKind::ConstantRange, 24)),
    ),
    (
        b"interface { provides x [t^3.cm.cm]; }",
        Err((FaultKind::ConstantRange, 24)),
    ),
    (
        b"interface { provides x [t^-4]; }",
        Err((FaultKind::ConstantRange, 24)),
    ),
    (
        b"interface { provides x [kg^9.m^10]; }",
        Err((FaultKind::ConstantRange, 24)),
    ),
    (
        b"interface { provides x [J^5]; }",
        Err((FaultKind::ConstantRange, 24)),
    ),
    (
        b"interface { provides x [product(t^4, s^10)]; }",
        Err((FaultKind::ConstantRange, 32)),
    ),
    (
        b"interface { provides x [product(Nat, product(g, t^4))]; }",
        Err((FaultKind::ConstantRange, 48)),
    ),
    (
        b"interface { provides x [mg]; }",
        Err((FaultKind::PortGrid, 24)),
    ),
    (
        b"interface { provides x [kg/day]; }",
        Err((FaultKind::PortGrid, 24)),
    ),
    (
        b"interface { provides x [kg/min]; }",
        Err((FaultKind::PortGrid, 24)),
    ),
    (
        b"interface { provides x [kg^-1]; }",
        Err((FaultKind::PortGrid, 24)),
    ),
    (
        b"interface { provides x [USD/kg]; }",
        Err((FaultKind::PortGrid, 24)),
    ),
    (
        b"interface { provides x [t^-3]; }",
        Err((FaultKind::PortGrid, 24)),
    ),
    (
        b"interface { provides x [product(Nat, mg)]; }",
        Err((FaultKind::PortGrid, 24)),
    ),
    (
        b"interface { provides x [product(s^10, mg)]; }",
        Err((FaultKind::PortGrid, 24)),
    ),
    (
        b"interface { provides x [product(t^4, product(g, kg^-1))]; }",
        Err((FaultKind::PortGrid, 24)),
    ),
];

/// Nets, and the type and the meaning of the lower expression of the first rule of each.
const EXPRESSIONS: [(&[u8], &str, &str); 40] = [
    (
        b"mcdp { provides x [Nat]; requires r [Nat]; r >= x; }",
        "number 0 0 0 0 0 0",
        "own 0",
    ),
    (
        b"mcdp { provides x [Nat]; provides w [kg]; requires r [g]; r >= w; }",
        "number 1 0 0 0 0 0",
        "own 1",
    ),
    (
        b"mcdp { instance n = m; instance o = m; requires r [g]; r >= o.mass; }",
        "number 1 0 0 0 0 0",
        "inner 1 0",
    ),
    (
        b"mcdp { instance n = m; instance o = m; requires r [USD]; r >= n.cost + 2 * o.cost; }",
        "number 0 0 0 0 1 0",
        "(inner 0 1 + 2/1 of inner 1 1)",
    ),
    // A constant that stands alone is rounded up.
    (
        b"mcdp { provides x [Nat]; provides w [kg]; requires r [g]; r >= 1/2 kg + w; }",
        "number 1 0 0 0 0 0",
        "(500 + own 1)",
    ),
    (
        b"mcdp { provides x [Nat]; provides w [kg]; requires r [g]; r >= 1/3 kg + w; }",
        "number 1 0 0 0 0 0",
        "(334 + own 1)",
    ),
    (
        b"mcdp { requires r [Nat]; r >= 1/3; }",
        "number 0 0 0 0 0 0",
        "1",
    ),
    (
        b"mcdp { requires r [g]; r >= 1.5 kg; }",
        "number 1 0 0 0 0 0",
        "1500",
    ),
    (
        b"mcdp { requires r [g]; r >= 0.0 g; }",
        "number 1 0 0 0 0 0",
        "0",
    ),
    (
        b"mcdp { requires r [Nat]; r >= 20000000000000000000/2; }",
        "number 0 0 0 0 0 0",
        "10000000000000000000",
    ),
    (
        b"mcdp { requires r [Nat]; r >= 1/3 + 1/3; }",
        "number 0 0 0 0 0 0",
        "(1 + 1)",
    ),
    (
        b"mcdp { provides x [Nat]; provides w [kg]; requires r [g]; r >= min(w, 2 g); }",
        "number 1 0 0 0 0 0",
        "(own 1 min 2)",
    ),
    (
        b"mcdp { provides x [Nat]; provides w [kg]; requires r [g]; r >= max(1/3 g, w); }",
        "number 1 0 0 0 0 0",
        "(1 max own 1)",
    ),
    (
        b"mcdp { provides x [Nat]; requires r [product(Nat, Nat)]; r >= <1/3, x>; }",
        "<number 0 0 0 0 0 0;number 0 0 0 0 0 0;>",
        "<1;own 0;>",
    ),
    (
        b"mcdp { provides x [Nat]; requires r [Nat]; r >= x + x + 3/2; }",
        "number 0 0 0 0 0 0",
        "((own 0 + own 0) + 2)",
    ),
    (
        b"mcdp { provides x [Nat]; requires r [Nat]; r >= x + (x + 3/2); }",
        "number 0 0 0 0 0 0",
        "(own 0 + (own 0 + 2))",
    ),
    // A product of constants is a constant, and a constant scales exactly.
    (
        b"mcdp { requires r [Nat]; r >= 1/3 * 3; }",
        "number 0 0 0 0 0 0",
        "1",
    ),
    (
        b"mcdp { requires r [Nat]; r >= 2/3 * 2; }",
        "number 0 0 0 0 0 0",
        "2",
    ),
    (
        b"mcdp { provides x [Nat]; requires r [Nat]; r >= 1/3 * 1/3 * x; }",
        "number 0 0 0 0 0 0",
        "1/9 of own 0",
    ),
    (
        b"mcdp { provides x [Nat]; requires r [Nat]; r >= 1/3 * x; }",
        "number 0 0 0 0 0 0",
        "1/3 of own 0",
    ),
    (
        b"mcdp { provides x [Nat]; requires r [Nat]; r >= x * 1/3; }",
        "number 0 0 0 0 0 0",
        "1/3 of own 0",
    ),
    (
        b"mcdp { provides x [Nat]; requires r [Nat]; r >= (1/3) * (x); }",
        "number 0 0 0 0 0 0",
        "1/3 of own 0",
    ),
    (
        b"mcdp { provides x [Nat]; requires r [Nat]; r >= x * 1/3 * 1/3; }",
        "number 0 0 0 0 0 0",
        "1/3 of 1/3 of own 0",
    ),
    (
        b"mcdp { provides x [Nat]; requires r [Nat]; r >= x * (1/3 * 1/3); }",
        "number 0 0 0 0 0 0",
        "1/9 of own 0",
    ),
    (
        b"mcdp { provides x [Nat]; requires r [Nat]; r >= 2 * (3 * x); }",
        "number 0 0 0 0 0 0",
        "2/1 of 3/1 of own 0",
    ),
    (
        b"mcdp { provides x [Nat]; requires r [Nat]; r >= 0 * x; }",
        "number 0 0 0 0 0 0",
        "0/1 of own 0",
    ),
    (
        b"mcdp { provides x [Nat]; requires r [g]; r >= 1/150 kg/Wh * (2 Wh * x); }",
        "number 1 0 0 0 0 0",
        "1/540000000000 of 7200000000000/1 of own 0",
    ),
    (
        b"mcdp { provides x [Nat]; requires r [g]; r >= 1/3 kg * x; }",
        "number 1 0 0 0 0 0",
        "1000/3 of own 0",
    ),
    (
        b"mcdp { provides x [Nat]; requires r [Nat]; r >= x * x; }",
        "number 0 0 0 0 0 0",
        "(own 0 * own 0)",
    ),
    (
        b"mcdp { provides x [Nat]; provides w [kg]; requires r [g]; r >= w * x * 2; }",
        "number 1 0 0 0 0 0",
        "2/1 of (own 1 * own 0)",
    ),
    (
        b"mcdp { provides x [Nat]; requires r [Nat]; r >= x + x * x; }",
        "number 0 0 0 0 0 0",
        "(own 0 + (own 0 * own 0))",
    ),
    // What has been rounded is no constant any more.
    (
        b"mcdp { provides x [Nat]; requires r [Nat]; r >= (1/3 + 1/3) * x; }",
        "number 0 0 0 0 0 0",
        "((1 + 1) * own 0)",
    ),
    (
        b"mcdp { requires r [Nat]; r >= (1/3 + 1/3) * 1/2; }",
        "number 0 0 0 0 0 0",
        "1/2 of (1 + 1)",
    ),
    (
        b"mcdp { requires r [Nat]; r >= 1/2 * max(1/3, 1); }",
        "number 0 0 0 0 0 0",
        "1/2 of (1 max 1)",
    ),
    // Literals.
    (
        b"mcdp { requires r [poset p]; r >= p:b; }",
        "element 0",
        "element 1",
    ),
    (
        b"mcdp { requires r [poset q]; r >= q:a; }",
        "element 1",
        "element 0",
    ),
    (
        b"mcdp { requires r [up p]; r >= p:{c, b, a, c}; }",
        "upper 0",
        "[0, 2]",
    ),
    (b"mcdp { requires r [up p]; r >= p:{b}; }", "upper 0", "[1]"),
    (b"mcdp { requires r [up p]; r >= p:{}; }", "upper 0", "[]"),
    (
        b"mcdp { provides x [Nat]; provides w [kg]; requires r [product(g, product(poset p, Nat))]; r >= <w, <p:a, 1/3>>; }",
        "<number 1 0 0 0 0 0;<element 0;number 0 0 0 0 0 0;>;>",
        "<own 1;<element 0;1;>;>",
    ),
];

/// Libraries, and what the rules of the design `z` may name, or what is first wrong with it.
const SCOPES: [(&[Listed], Result<&str, Wanted>); 7] = [
    (
        &[
            (
                "c.mcdp",
                b"catalogue { requires b [kg]; provides a [Nat]; requires c [g]; row x: 1 -> 1 g, 2 g; }",
            ),
            (
                "z.mcdp",
                b"mcdp { instance n = c; requires r [g]; provides w [kg]; instance o = c; requires s [Nat]; provides r [Nat]; }",
            ),
        ],
        Ok(
            "w: number 1 0 0 0 0 0, kg of 1000;r: number 0 0 0 0 0 0, Nat;|r: number 1 0 0 0 0 0, g of 1;s: number 0 0 0 0 0 0, Nat;, n: a: number 0 0 0 0 0 0, Nat;|b: number 1 0 0 0 0 0, kg of 1000;c: number 1 0 0 0 0 0, g of 1;, o: a: number 0 0 0 0 0 0, Nat;|b: number 1 0 0 0 0 0, kg of 1000;c: number 1 0 0 0 0 0, g of 1;",
        ),
    ),
    (
        &[
            (
                "c.mcdp",
                b"catalogue { requires b [kg]; provides a [Nat]; requires c [g]; row x: 1 -> 1 g, 2 g; }",
            ),
            ("d.mcdp", b"choose { x: c; }"),
            ("z.mcdp", b"choose { one: d; }"),
        ],
        Ok(
            "a: number 0 0 0 0 0 0, Nat;|b: number 1 0 0 0 0 0, kg of 1000;c: number 1 0 0 0 0 0, g of 1;, one: a: number 0 0 0 0 0 0, Nat;|b: number 1 0 0 0 0 0, kg of 1000;c: number 1 0 0 0 0 0, g of 1;",
        ),
    ),
    (
        &[
            (
                "i.interface",
                b"interface { requires b [kg]; provides a [Nat]; }",
            ),
            (
                "z.template",
                b"template<p: i> mcdp { requires r [g]; instance s = p; }",
            ),
        ],
        Ok(
            "|r: number 1 0 0 0 0 0, g of 1;, s: a: number 0 0 0 0 0 0, Nat;|b: number 1 0 0 0 0 0, kg of 1000;",
        ),
    ),
    // Only the ports of the scope are looked at, the own ones first.
    (
        &[
            ("a.interface", b"interface { provides x [mg]; }"),
            ("z.mcdp", b"mcdp { requires r [g]; nothing >= 1/0; }"),
        ],
        Ok("|r: number 1 0 0 0 0 0, g of 1;"),
    ),
    (
        &[
            ("c.mcdp", b"catalogue { provides a [mg]; row x: 1 -> ; }"),
            ("z.mcdp", b"mcdp { instance s = c; requires r [g]; }"),
        ],
        Err(("c.mcdp", FaultKind::PortGrid, 24)),
    ),
    (
        &[
            ("c.mcdp", b"catalogue { provides a [mg]; row x: 1 -> ; }"),
            ("z.mcdp", b"mcdp { instance s = c; requires r [s^10]; }"),
        ],
        Err(("z.mcdp", FaultKind::Exponent, 35)),
    ),
    (
        &[
            ("c.mcdp", b"choose { x: d; y: e; }"),
            ("d.mcdp", b"catalogue { provides a [t^4]; row x: 1 -> ; }"),
            ("e.mcdp", b"catalogue { provides a [mg]; row x: 1 -> ; }"),
            ("z.mcdp", b"mcdp { instance s = c; }"),
        ],
        Err(("d.mcdp", FaultKind::ConstantRange, 24)),
    ),
];

fn shown_kind(alloc: Global, kind: &Kind) -> Result<String, AllocError> {
    match kind {
        Kind::Num(dim) => format!(in alloc;
            "number {} {} {} {} {} {}",
            dim.mass, dim.length, dim.time, dim.current, dim.money, dim.bits
        ),
        Kind::Fin(poset) => format!(in alloc; "element {poset}"),
        Kind::Up(poset) => format!(in alloc; "upper {poset}"),
        Kind::Prod(kinds) => {
            let mut made = String::from_str(alloc, "<")?;
            for kind in kinds.items() {
                made.push_str(shown_kind(alloc, kind)?.as_str())?;
                made.push_str(";")?;
            }
            made.push_str(">")?;
            Ok(made)
        }
    }
}

fn shown_unit(alloc: Global, unit: &PortUnit) -> Result<String, AllocError> {
    match unit {
        PortUnit::Nat => String::from_str(alloc, "Nat"),
        PortUnit::Unit { text, size } => unit_of_size(alloc, text.as_str(), *size),
        PortUnit::Poset => String::from_str(alloc, "poset"),
        PortUnit::Parts(units) => {
            let mut made = String::from_str(alloc, "<")?;
            for unit in units.items() {
                made.push_str(shown_unit(alloc, unit)?.as_str())?;
                made.push_str(";")?;
            }
            made.push_str(">")?;
            Ok(made)
        }
    }
}

fn unit_of_size(alloc: Global, text: &str, size: u64) -> Result<String, AllocError> {
    format!(in alloc; "{text} of {size}")
}

fn shown_port(alloc: Global, port: &Port) -> Result<String, AllocError> {
    let name = port.name.as_str();
    let kind = shown_kind(alloc, &port.kind)?;
    let unit = shown_unit(alloc, &port.unit)?;
    format!(in alloc; "{name}: {kind}, {unit}")
}

/// Shows the ports, each with a semicolon behind it.
fn show_ports(alloc: Global, ports: &[Port], made: &mut String) -> Result<(), AllocError> {
    for port in ports {
        made.push_str(shown_port(alloc, port)?.as_str())?;
        made.push_str(";")?;
    }
    Ok(())
}

fn show_sides(alloc: Global, ports: &SidePorts, made: &mut String) -> Result<(), AllocError> {
    show_ports(alloc, ports.provides.items(), made)?;
    made.push_str("|")?;
    show_ports(alloc, ports.requires_.items(), made)
}

/// The own ports, and those of each part behind its name.
fn shown_scope(alloc: Global, scope: &Scope) -> Result<String, AllocError> {
    let mut made = String::new(alloc);
    show_sides(alloc, scope.own.get(), &mut made)?;
    for part in scope.parts.items() {
        made.push_str(", ")?;
        made.push_str(part.name.as_str())?;
        made.push_str(": ")?;
        show_sides(alloc, part.ports.get(), &mut made)?;
    }
    Ok(made)
}

fn shown(alloc: Global, expr: &Expr) -> Result<String, AllocError> {
    match expr {
        Expr::Own(port) => format!(in alloc; "own {port}"),
        Expr::Inner(part, port) => format!(in alloc; "inner {part} {port}"),
        Expr::Constant(value) => shown_value(alloc, value),
        Expr::Scale(by, a) => scaled(alloc, by.num, by.den, shown(alloc, a.get())?),
        Expr::Sum(a, b) => joined(alloc, shown(alloc, a.get())?, "+", shown(alloc, b.get())?),
        Expr::Product(a, b) => joined(alloc, shown(alloc, a.get())?, "*", shown(alloc, b.get())?),
        Expr::Greatest(a, b) => joined(
            alloc,
            shown(alloc, a.get())?,
            "max",
            shown(alloc, b.get())?,
        ),
        Expr::Lesser(a, b) => joined(alloc, shown(alloc, a.get())?, "min", shown(alloc, b.get())?),
        Expr::Tuple(parts) => {
            let mut made = String::from_str(alloc, "<")?;
            for part in parts.items() {
                made.push_str(shown(alloc, part)?.as_str())?;
                made.push_str(";")?;
            }
            made.push_str(">")?;
            Ok(made)
        }
    }
}

fn shown_value(alloc: Global, value: &Value) -> Result<String, AllocError> {
    match value {
        Value::Num(count) => format!(in alloc; "{count}"),
        Value::El(element) => format!(in alloc; "element {element}"),
        Value::Up(elements) => numbers(alloc, elements.items()),
        _ => String::from_str(alloc, "another"),
    }
}

fn numbers(alloc: Global, elements: &[u32]) -> Result<String, AllocError> {
    format!(in alloc; "{elements:?}")
}

fn scaled(alloc: Global, num: u64, den: u64, a: String) -> Result<String, AllocError> {
    format!(in alloc; "{num}/{den} of {a}")
}

fn joined(alloc: Global, a: String, op: &str, b: String) -> Result<String, AllocError> {
    format!(in alloc; "({a} {op} {b})")
}

/// The first port of an interface.
fn first_port(tree: &File) -> Option<&PortTree> {
    match tree {
        File::Interface(ports) => ports.get(0),
        _ => None,
    }
}

/// The lower expression of the first rule of a net.
fn first_lower(tree: &File) -> Option<&ExprTree> {
    let File::Design(BodyTree::Net { rules, .. }) = tree else {
        return None;
    };
    match rules.get(0)? {
        RuleTree::Above { lower, .. } => Some(lower),
        RuleTree::Ignore(_) => None,
    }
}

/// What `port_of` answers for the first port of the interface `z`. None where a text can't be read.
fn port(alloc: Global, listed: &[Listed]) -> Option<Result<Port, StageFault>> {
    let names = built(alloc, listed)?.ok()?;
    let file = names.interface("z")?;
    let tree = first_port(&names.files.get(file as usize)?.tree)?;
    Some(port_of(alloc, &names, file, tree))
}

/// What `scope_of` answers for the design `z`. None where a text can't be read.
fn scope(alloc: Global, listed: &[Listed]) -> Option<Result<Scope, StageFault>> {
    let names = built(alloc, listed)?.ok()?;
    let file = names.design("z")?;
    names.files.get(file as usize)?;
    Some(scope_of(alloc, &names, file))
}

/// Whether the port of the interface is shown so, and its types are in order.
fn is_port(alloc: Global, listed: &[Listed], want: &str) -> Option<bool> {
    typed(alloc, listed)?.ok()?;
    let port = port(alloc, listed)?.ok()?;
    Some(shown_port(alloc, &port).ok()?.as_str() == want)
}

/// Whether the interface has this port, or this fault.
fn is_written(
    alloc: Global,
    text: &'static [u8],
    want: Result<&str, (FaultKind, u64)>,
) -> Option<bool> {
    let listed = beside(alloc, ("z.interface", text)).ok()?;
    match want {
        Ok(shown) => is_port(alloc, listed.as_slice(), shown),
        Err((kind, at)) => {
            let want = Some(("z.interface", kind, at));
            let types = is_wanted(typed(alloc, listed.as_slice()), want);
            Some(types && is_wanted(port(alloc, listed.as_slice()), want))
        }
    }
}

/// Whether the scope of the design is shown so, or it has this fault.
fn is_scope(alloc: Global, listed: &[Listed], want: Result<&str, Wanted>) -> Option<bool> {
    match want {
        Ok(shown) => {
            let scope = scope(alloc, listed)?.ok()?;
            Some(shown_scope(alloc, &scope).ok()?.as_str() == shown)
        }
        Err(fault) => Some(is_wanted(scope(alloc, listed), Some(fault))),
    }
}

/// Whether `lower_of` answers this type and this meaning for the expression of the net.
fn means(alloc: Global, text: &'static [u8], kind: &str, expr: &str) -> Option<bool> {
    let listed = beside(alloc, ("z.mcdp", text)).ok()?;
    let names = built(alloc, listed.as_slice())?.ok()?;
    let file = names.design("z")?;
    let tree = first_lower(&names.files.get(file as usize)?.tree)?;
    let scope = scope_of(alloc, &names, file).ok()?;
    let lower = lower_of(alloc, &names, file, &scope, tree).ok()?;
    let shown_kind = shown_kind(alloc, &lower.kind).ok()?;
    let shown = shown(alloc, &lower.expr).ok()?;
    Some(shown_kind.as_str() == kind && shown.as_str() == expr)
}

/// The number of the first interface that isn't as wanted.
fn first_wrong_port(
    alloc: Global,
    rows: &[(&'static [u8], Result<&str, (FaultKind, u64)>)],
) -> Option<usize> {
    for (number, (text, want)) in rows.iter().enumerate() {
        if is_written(alloc, *text, *want) != Some(true) {
            return Some(number);
        }
    }
    None
}

/// The number of the first net whose expression isn't as wanted.
fn first_wrong_expression(alloc: Global, rows: &[(&'static [u8], &str, &str)]) -> Option<usize> {
    for (number, (text, kind, expr)) in rows.iter().enumerate() {
        if means(alloc, *text, *kind, *expr) != Some(true) {
            return Some(number);
        }
    }
    None
}

/// The number of the first library whose design has another scope.
fn first_wrong_scope(alloc: Global, rows: &[(&[Listed], Result<&str, Wanted>)]) -> Option<usize> {
    for (number, (listed, want)) in rows.iter().enumerate() {
        if is_scope(alloc, *listed, *want) != Some(true) {
            return Some(number);
        }
    }
    None
}

#[test]
fn ports_and_expressions_are_as_they_are_written(rt: HostRuntime) -> Result<(), Fail> {
    assert_eq!(rt; first_wrong_port(rt.alloc(), &PORTS), None);
    assert_eq!(rt; first_wrong_expression(rt.alloc(), &EXPRESSIONS), None);
    assert_eq!(rt; first_wrong_scope(rt.alloc(), &SCOPES), None);
    Ok(())
}
