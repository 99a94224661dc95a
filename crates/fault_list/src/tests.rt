use crate::{Fault, FaultKind, Stop, earlier, in_file};
use order_core::Text;
use std::test::Fail;

fn twice(at: u64) -> Option<Fault> {
    let kind = FaultKind::Twice;
    Some(Fault { kind, at })
}

fn unknown(at: u64) -> Option<Fault> {
    let kind = FaultKind::Unknown;
    Some(Fault { kind, at })
}

#[test]
fn the_earlier_fault_is_the_answer(rt: HostRuntime) -> Result<(), Fail> {
    let rows = [
        (None, None, None),
        (twice(7), None, twice(7)),
        (None, twice(7), twice(7)),
        (twice(7), unknown(8), twice(7)),
        (twice(8), unknown(7), unknown(7)),
        (twice(7), unknown(7), twice(7)),
        (twice(u64::MAX), unknown(0), unknown(0)),
    ];
    for (a, b, want) in rows {
        assert_eq!(rt; earlier(a, b), want);
    }
    Ok(())
}

#[test]
fn a_fault_is_given_the_name_of_its_file(rt: HostRuntime) -> Result<(), Fail> {
    let file = Text::of(String::from_str(rt.alloc(), "motors.mcdp")?);
    let kind = FaultKind::Circular;
    match in_file(rt.alloc(), &file, Stop::At(Fault { kind, at: 12 })) {
        Stop::At(placed) => {
            assert!(rt; placed.file.as_str() == "motors.mcdp");
            assert_eq!(rt; (placed.kind, placed.at), (kind, 12));
        }
        Stop::Memory => assert!(rt; false),
    }
    assert!(rt; matches!(in_file(rt.alloc(), &file, Stop::Memory), Stop::Memory));
    Ok(())
}
