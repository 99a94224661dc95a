use super::{Outcome, file_outcome};
use design_parser::FileKind;
use std::alloc::{AllocError, Global};
use std::test::Fail;

/// Puts a rule with so many signs at the end, by turns `+` and `*`.
fn add_rule(text: &mut String, signs: u32) -> Result<(), AllocError> {
    text.push_str("a >= 1")?;
    for i in 0..signs {
        text.push_str(if i % 2 == 0 { "+1" } else { "*1" })?;
    }
    text.push_str(";")
}

/// What becomes of a net with rules of so many signs.
fn rules_outcome(alloc: Global, rules: &[u32]) -> Result<Outcome, AllocError> {
    let mut text = String::new(alloc);
    text.push_str("mcdp{")?;
    for signs in rules {
        add_rule(&mut text, *signs)?;
    }
    text.push_str("}")?;
    Ok(file_outcome(alloc, FileKind::Design, text.as_bytes()))
}

#[test]
fn rules_have_1000_signs(rt: HostRuntime) -> Result<(), Fail> {
    assert_eq!(rt; rules_outcome(rt.alloc(), &[1000])?, Outcome::Written);
    assert_eq!(rt;
        rules_outcome(rt.alloc(), &[1001])?,
        Outcome::At(5 + 6 + 2000)
    );
    Ok(())
}

#[test]
fn each_rule_has_signs_of_its_own(rt: HostRuntime) -> Result<(), Fail> {
    assert_eq!(rt;
        rules_outcome(rt.alloc(), &[1000, 1000, 0])?,
        Outcome::Written
    );
    assert_eq!(rt;
        rules_outcome(rt.alloc(), &[1000, 1001])?,
        Outcome::At(5 + 2007 + 6 + 2000)
    );
    Ok(())
}

#[test]
fn a_fault_before_the_sign_comes_first(rt: HostRuntime) -> Result<(), Fail> {
    let mut text = String::new(rt.alloc());
    text.push_str("mcdp{a >= 1 1+1;")?;
    add_rule(&mut text, 1001)?;
    assert_eq!(rt;
        file_outcome(rt.alloc(), FileKind::Design, text.as_bytes()),
        Outcome::At(12)
    );
    Ok(())
}

#[test]
fn signs_without_an_end_are_counted_too(rt: HostRuntime) -> Result<(), Fail> {
    let mut text = String::new(rt.alloc());
    text.push_str("mcdp{a >= 1")?;
    for _ in 0..5000 {
        text.push_str("+1")?;
    }
    assert_eq!(rt;
        file_outcome(rt.alloc(), FileKind::Design, text.as_bytes()),
        Outcome::At(5 + 6 + 2000)
    );
    Ok(())
}
