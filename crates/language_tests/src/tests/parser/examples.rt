use super::{Outcome, file_outcome, query_outcome};
use design_parser::FileKind;
use std::test::Fail;

/// An example of the language's reference.
#[derive(Clone, Copy)]
struct Example {
    kind: FileKind,
    text: &'static str,
}

const EXAMPLES: [Example; 10] = [
    Example {
        kind: FileKind::Poset,
        text: "poset {\n  elements none, bronze, silver, gold, quiet;\n  none <= bronze <= silver <= gold;\n  none <= quiet;\n}",
    },
    Example {
        kind: FileKind::Interface,
        text: "interface { provides capacity [Wh]; requires mass [g]; requires cost [USD]; }",
    },
    Example {
        kind: FileKind::Design,
        text: "catalogue {\n  provides lift [g]; requires mass [g]; requires cost [USD];\n  row small: 1000 g -> 100 g, 40 USD;\n  row large: 3 kg -> 0.4 kg, 90 USD;\n}",
    },
    Example {
        kind: FileKind::Design,
        text: "catalogue { provides lift [g]; requires mass [g]; requires cost [USD]; table list; }",
    },
    Example {
        kind: FileKind::Design,
        text: "choose { lithium: lithium; nickel: nickel; }",
    },
    Example {
        kind: FileKind::Design,
        text: "mcdp {\n  provides payload [g]; requires mass [g];\n  instance motor = motors;\n  motor.lift >= payload + motor.mass;\n  mass >= motor.mass;\n  ignore motor.cost;\n}",
    },
    Example {
        kind: FileKind::Design,
        text: "mcdp {\n  provides load [kg]; provides time [min]; provides power [W]; provides level [poset grade];\n  requires mass [g]; requires energy [Wh]; requires pair [product(g, poset grade)];\n  requires rank [poset grade]; requires safe [up grade];\n  mass >= 1/10 * load + 2 kg;\n  mass >= max(load, 1.5 kg) + min(load, 500 g);\n  energy >= (time + 1 min) * power;\n  pair >= <load, level>;\n  rank >= grade:silver;\n  safe >= grade:{silver, quiet};\n}",
    },
    Example {
        kind: FileKind::Design,
        text: "catalogue {\n  provides torque [N.m]; provides acceleration [m/s^2]; provides data [product(byte/s, Nat)];\n  requires mass [kg];\n  row one: 1.5 N.m, 981/100 m/s^2, <8 kbit/s, 3> -> 750 g;\n}",
    },
    Example {
        kind: FileKind::Template,
        text: "template <source: battery>\nmcdp {\n  provides endurance [min]; provides power [W]; requires mass [g]; requires cost [USD];\n  instance cell = source;\n  cell.capacity >= endurance * power;\n  mass >= cell.mass; cost >= cell.cost;\n}",
    },
    Example {
        kind: FileKind::Design,
        text: "mcdp {\n  provides endurance [min]; requires mass [g]; requires cost [USD];\n  instance device = mobile<source: lithium>;\n  device.endurance >= endurance; device.power >= 15 W;\n  mass >= device.mass; cost >= device.cost;\n}",
    },
];

#[test]
fn examples_of_the_reference_are_written(rt: HostRuntime) -> Result<(), Fail> {
    let examples: [Example; 10] = EXAMPLES;
    for example in examples.as_slice() {
        assert_eq!(rt;
            file_outcome(rt.alloc(), example.kind, example.text.as_bytes()),
            Outcome::Written
        );
    }
    Ok(())
}

#[test]
fn query_of_the_reference_is_written(rt: HostRuntime) -> Result<(), Fail> {
    assert_eq!(rt;
        query_outcome(rt.alloc(), "0.3 kg, 1/2 h, 15 W, grade:bronze".as_bytes()),
        Outcome::Written
    );
    Ok(())
}
