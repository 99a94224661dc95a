ghost use Rattle.std.specs.Prelude.{IsTrue};
ghost use Rattle.order_core.specs.Pointwise.{Each};
ghost use Rattle.cut_plan.specs.Nets.{is_net, net_in, HasFewPorts};
ghost use Rattle.design_model.specs.Typed.{IsFew};

use super::{NUMBERS, text};
use cut_plan::{cuts_of, rounds_enough};
use design_model::{CatRow, Constraint, Design, Expr, Greater, Part};
use order_core::{Boxed, FiniteOrder, List};
use std::alloc::Global;
use std::process::Abort;
use std::test::Fail;
use value_type::{Kind, Port, PortUnit, Poset, Row, Types, Value};

fn one_port(alloc: Global, kind: Kind) -> Result<List<Port>, Fail> {
    let port = Port {
        name: text(alloc, "port")?,
        kind,
        unit: PortUnit::Nat,
    };
    Ok(List::of(vec![in alloc; port]?))
}

/// One poset with three elements, none of them related.
fn three_elements(alloc: Global) -> Result<Types, Fail> {
    let poset = Poset {
        name: text(alloc, "grade")?,
        elements: List::of(vec![in alloc;
            text(alloc, "a")?,
            text(alloc, "b")?,
            text(alloc, "c")?,
        ]?),
        order: FiniteOrder::close(alloc, 3, &[])?,
    };
    Ok(Types {
        posets: List::of(vec![in alloc; poset]?),
    })
}

/// A catalogue with one provided and one required port, and these values in its rows.
fn catalogue(
    alloc: Global,
    provided: Kind,
    required: Kind,
    lines: &[(u64, u64)],
) -> Result<Design, Fail> {
    let mut rows = Vec::new(alloc);
    for (x, y) in lines {
        rows.push(CatRow {
            name: text(alloc, "row")?,
            provided: Row::of(alloc, List::of(vec![in alloc; Value::Num(*x)]?))?,
            required: Row::of(alloc, List::of(vec![in alloc; Value::Num(*y)]?))?,
        })?;
    }
    Ok(Design::Cat {
        provides: one_port(alloc, provided)?,
        requires_: one_port(alloc, required)?,
        rows: List::of(rows),
    })
}

/// A net with one provided and one required number port.
fn net(alloc: Global, designs: Vec<Design>, constraints: Vec<Constraint>) -> Result<Design, Fail> {
    let mut parts = Vec::new(alloc);
    for design in designs {
        parts.push(Part {
            name: text(alloc, "part")?,
            design,
        })?;
    }
    Ok(Design::Net {
        provides: one_port(alloc, NUMBERS)?,
        requires_: one_port(alloc, NUMBERS)?,
        parts: List::of(parts),
        constraints: List::of(constraints),
    })
}

/// The provided port of the part is at least this.
fn into(part: u32, lower: Expr) -> Constraint {
    Constraint {
        greater: Greater::Inner(part, 0),
        lower,
    }
}

/// The own required port is at least the required port of the part.
fn out_of(part: u32) -> Constraint {
    Constraint {
        greater: Greater::Own(0),
        lower: Expr::Inner(part, 0),
    }
}

/// The net whose only part requires no less than it provides, which leaves it as its own resource.
fn looped(alloc: Global, part: Design) -> Result<Design, Fail> {
    let constraints = vec![in alloc; into(0, Expr::Inner(0, 0)), out_of(0)]?;
    net(alloc, vec![in alloc; part]?, constraints)
}

/// Whether it is a net with few parts and few ports.
fn can_be_cut(design: &Design) -> bool
    ensures net { IsTrue result → IsTrue (is_net design.now) }
    ensures parts { IsTrue result → IsFew (net_in design.now).parts }
    ensures ports { IsTrue result → Each HasFewPorts (net_in design.now).parts }
{
    match design {
        Design::Net { parts, .. } => {
            parts.items().len() < 4_294_967_296 && have_few_ports(parts.items())
        }
        _ => false,
    }
}

fn have_few_ports(parts: &[Part]) -> bool
    ensures { IsTrue result → Each HasFewPorts parts.now }
{
    for part in parts {
        if part.design.required_ports().len() >= 4_294_967_296 {
            return false;
        }
    }
    true
}

/// The net has this order, and these cut signals.
fn expect_cuts(
    rt: &impl Abort,
    alloc: Global,
    net: &Design,
    order: &[u32],
    signals: &[(u32, u32)],
) -> Result<(), Fail> {
    assert!(rt; can_be_cut(net));
    let cuts = cuts_of(alloc, net)?;
    assert_eq!(rt; cuts.order.items().len(), order.len());
    for (part, want) in cuts.order.items().iter().zip(order) {
        assert_eq!(rt; *part, *want);
    }
    assert_eq!(rt; cuts.signals.items().len(), signals.len());
    for (signal, (part, port)) in cuts.signals.items().iter().zip(signals) {
        assert_eq!(rt; signal.part, *part);
        assert_eq!(rt; signal.port, *port);
    }
    Ok(())
}

#[test]
fn relay_is_evaluated_from_its_last_part(rt: HostRuntime) -> Result<(), Fail> {
    let alloc = rt.alloc();
    let parts = vec![in alloc;
        catalogue(alloc, NUMBERS, NUMBERS, &[])?,
        catalogue(alloc, NUMBERS, NUMBERS, &[])?,
        catalogue(alloc, NUMBERS, NUMBERS, &[])?,
    ]?;
    let constraints = vec![in alloc;
        into(2, Expr::Own(0)),
        into(1, Expr::Inner(2, 0)),
        into(0, Expr::Inner(1, 0)),
        out_of(0),
    ]?;
    let relay = net(alloc, parts, constraints)?;
    expect_cuts(&rt, alloc, &relay, &[2, 1, 0], &[])
}

#[test]
fn lifter_reads_itself(rt: HostRuntime) -> Result<(), Fail> {
    let alloc = rt.alloc();
    let parts = vec![in alloc; catalogue(alloc, NUMBERS, NUMBERS, &[])?]?;
    let lift = Expr::Sum(
        Boxed::of(alloc, Expr::Own(0))?,
        Boxed::of(alloc, Expr::Inner(0, 0))?,
    );
    let lifter = net(alloc, parts, vec![in alloc; into(0, lift), out_of(0)]?)?;
    expect_cuts(&rt, alloc, &lifter, &[0], &[(0, 0)])
}

#[test]
fn two_loops_share_a_part(rt: HostRuntime) -> Result<(), Fail> {
    let alloc = rt.alloc();
    let parts = vec![in alloc;
        catalogue(alloc, NUMBERS, NUMBERS, &[])?,
        catalogue(alloc, NUMBERS, NUMBERS, &[])?,
        catalogue(alloc, NUMBERS, NUMBERS, &[])?,
    ]?;
    let both = Expr::Greatest(
        Boxed::of(alloc, Expr::Inner(1, 0))?,
        Boxed::of(alloc, Expr::Inner(2, 0))?,
    );
    let constraints = vec![in alloc;
        into(0, both),
        into(1, Expr::Inner(0, 0)),
        into(2, Expr::Inner(0, 0)),
        out_of(0),
    ]?;
    let shared = net(alloc, parts, constraints)?;
    expect_cuts(&rt, alloc, &shared, &[0, 1, 2], &[(1, 0), (2, 0)])
}

/// A catalogue that requires each of 1 to 40, and the last of these twice.
fn grid(alloc: Global) -> Result<Design, Fail> {
    let mut lines = Vec::new(alloc);
    for k in 1..41 {
        lines.push((k - 1, k))?;
    }
    lines.push((40, 40))?;
    catalogue(alloc, NUMBERS, NUMBERS, &lines)
}

#[test]
fn numbers_climb_through_a_catalogue(rt: HostRuntime) -> Result<(), Fail> {
    let alloc = rt.alloc();
    let types = three_elements(alloc)?;
    let grid = grid(alloc)?;
    assert_eq!(rt; rounds_enough(alloc, &types, &grid)?, Some(1));
    let climb = looped(alloc, grid)?;
    assert_eq!(rt; rounds_enough(alloc, &types, &climb)?, Some(42));
    Ok(())
}

#[test]
fn numbers_through_a_net_are_not_known(rt: HostRuntime) -> Result<(), Fail> {
    let alloc = rt.alloc();
    let types = three_elements(alloc)?;
    let more = Expr::Sum(
        Boxed::of(alloc, Expr::Own(0))?,
        Boxed::of(alloc, Expr::Constant(Value::Num(1)))?,
    );
    let constraint = Constraint {
        greater: Greater::Own(0),
        lower: more,
    };
    let succ = net(alloc, vec![in alloc]?, vec![in alloc; constraint]?)?;
    let counter = looped(alloc, succ)?;
    assert_eq!(rt; rounds_enough(alloc, &types, &counter)?, None);
    Ok(())
}

#[test]
fn elements_and_upper_sets_climb_by_the_poset(rt: HostRuntime) -> Result<(), Fail> {
    let alloc = rt.alloc();
    let types = three_elements(alloc)?;
    let elements = looped(alloc, catalogue(alloc, Kind::Fin(0), Kind::Fin(0), &[])?)?;
    assert_eq!(rt; rounds_enough(alloc, &types, &elements)?, Some(4));
    let sets = looped(alloc, catalogue(alloc, Kind::Up(0), Kind::Up(0), &[])?)?;
    assert_eq!(rt; rounds_enough(alloc, &types, &sets)?, Some(5));
    Ok(())
}
