use super::{Outcome, query_outcome};
use design_lexer::lex;
use design_parser::parse_values;
use std::alloc::Global;
use std::test::Fail;

/// How many values the query has.
fn count(alloc: Global, text: &[u8]) -> Option<usize> {
    let Ok(tokens) = lex(alloc, text) else {
        return None;
    };
    match parse_values(alloc, text, &tokens) {
        Ok(values) => Some(values.items().len()),
        Err(_) => None,
    }
}

#[test]
fn queries_have_any_number_of_values(rt: HostRuntime) -> Result<(), Fail> {
    assert_eq!(rt; count(rt.alloc(), b""), Some(0));
    assert_eq!(rt; count(rt.alloc(), b"1/2 kg"), Some(1));
    assert_eq!(rt;
        count(rt.alloc(), b"Top, <1, 2>, p:a, p:{a, b}, p:{}"),
        Some(5)
    );
    Ok(())
}

#[test]
fn queries_are_refused_at_their_places(rt: HostRuntime) -> Result<(), Fail> {
    assert_eq!(rt; query_outcome(rt.alloc(), b"1,"), Outcome::At(2));
    assert_eq!(rt; query_outcome(rt.alloc(), b"1, 2 3"), Outcome::At(5));
    assert_eq!(rt; query_outcome(rt.alloc(), b"<>"), Outcome::At(1));
    assert_eq!(rt; query_outcome(rt.alloc(), b"p"), Outcome::At(1));
    assert_eq!(rt; query_outcome(rt.alloc(), b"1 + 2"), Outcome::At(2));
    Ok(())
}
