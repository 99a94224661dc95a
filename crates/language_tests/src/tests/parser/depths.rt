use super::{Outcome, file_outcome, query_outcome};
use design_parser::FileKind;
use std::alloc::{AllocError, Global};
use std::test::Fail;

/// The front, so many times the opening piece, the inner piece, as often the closing one, and the back.
fn nested(
    alloc: Global,
    front: &str,
    open: &str,
    depth: u32,
    inner: &str,
    close: &str,
    back: &str,
) -> Result<String, AllocError> {
    let mut text = String::new(alloc);
    text.push_str(front)?;
    for _ in 0..depth {
        text.push_str(open)?;
    }
    text.push_str(inner)?;
    for _ in 0..depth {
        text.push_str(close)?;
    }
    text.push_str(back)?;
    Ok(text)
}

fn rule_outcome(
    alloc: Global,
    open: &str,
    depth: u32,
    inner: &str,
    close: &str,
) -> Result<Outcome, AllocError> {
    let text = nested(alloc, "mcdp { a >= ", open, depth, inner, close, "; }")?;
    Ok(file_outcome(alloc, FileKind::Design, text.as_bytes()))
}

#[test]
fn round_brackets_are_64_deep(rt: HostRuntime) -> Result<(), Fail> {
    assert_eq!(rt;
        rule_outcome(rt.alloc(), "(", 64, "1", ")")?,
        Outcome::Written
    );
    assert_eq!(rt;
        rule_outcome(rt.alloc(), "(", 65, "1", ")")?,
        Outcome::At(12 + 64)
    );
    Ok(())
}

#[test]
fn angle_brackets_count_with_round_ones(rt: HostRuntime) -> Result<(), Fail> {
    assert_eq!(rt;
        rule_outcome(rt.alloc(), "(<", 32, "1", ">)")?,
        Outcome::Written
    );
    assert_eq!(rt;
        rule_outcome(rt.alloc(), "(<", 32, "(1)", ">)")?,
        Outcome::At(12 + 64)
    );
    assert_eq!(rt;
        rule_outcome(rt.alloc(), "(<", 32, "<1>", ">)")?,
        Outcome::At(12 + 64)
    );
    Ok(())
}

#[test]
fn words_before_a_bracket_are_refused_themselves(rt: HostRuntime) -> Result<(), Fail> {
    assert_eq!(rt;
        rule_outcome(rt.alloc(), "max(1,", 64, "1", ")")?,
        Outcome::Written
    );
    assert_eq!(rt;
        rule_outcome(rt.alloc(), "max(1,", 64, "max(1,1)", ")")?,
        Outcome::At(12 + 64 * 6)
    );
    assert_eq!(rt;
        rule_outcome(rt.alloc(), "max(1,", 64, "min(1,1)", ")")?,
        Outcome::At(12 + 64 * 6)
    );
    assert_eq!(rt;
        rule_outcome(rt.alloc(), "max(1,", 64, "1 min", ")")?,
        Outcome::Written
    );
    Ok(())
}

#[test]
fn types_are_64_deep(rt: HostRuntime) -> Result<(), Fail> {
    let front = "interface { requires a [";
    let text = nested(rt.alloc(), front, "product(", 64, "Nat", ")", "]; }")?;
    assert_eq!(rt;
        file_outcome(rt.alloc(), FileKind::Interface, text.as_bytes()),
        Outcome::Written
    );
    let text = nested(rt.alloc(), front, "product(", 65, "Nat", ")", "]; }")?;
    assert_eq!(rt;
        file_outcome(rt.alloc(), FileKind::Interface, text.as_bytes()),
        Outcome::At(24 + 64 * 8)
    );
    Ok(())
}

#[test]
fn values_are_64_deep(rt: HostRuntime) -> Result<(), Fail> {
    let text = nested(rt.alloc(), "", "<", 64, "1", ">", "")?;
    assert_eq!(rt;
        query_outcome(rt.alloc(), text.as_bytes()),
        Outcome::Written
    );
    let text = nested(rt.alloc(), "", "<", 65, "1", ">", "")?;
    assert_eq!(rt; query_outcome(rt.alloc(), text.as_bytes()), Outcome::At(64));
    Ok(())
}

#[test]
fn references_are_64_deep(rt: HostRuntime) -> Result<(), Fail> {
    let text = nested(rt.alloc(), "choose { b: ", "t<x: ", 64, "d", ">", "; }")?;
    assert_eq!(rt;
        file_outcome(rt.alloc(), FileKind::Design, text.as_bytes()),
        Outcome::Written
    );
    let text = nested(rt.alloc(), "choose { b: ", "t<x: ", 65, "d", ">", "; }")?;
    assert_eq!(rt;
        file_outcome(rt.alloc(), FileKind::Design, text.as_bytes()),
        Outcome::At(12 + 64 * 5 + 1)
    );
    Ok(())
}
