use super::has_tokens;
use design_lexer::{LexFault, lex};
use std::alloc::Global;
use std::test::Fail;

/// Why the text has no tokens, if it has none.
fn fault_of(alloc: Global, text: &[u8]) -> Option<LexFault> {
    match lex(alloc, text) {
        Ok(_) => None,
        Err(fault) => Some(fault),
    }
}

#[test]
fn other_bytes_are_no_text(rt: HostRuntime) -> Result<(), Fail> {
    assert_eq!(rt; fault_of(rt.alloc(), &[255, 254]), Some(LexFault::NotText));
    assert_eq!(rt; fault_of(rt.alloc(), &[b'$', 255]), Some(LexFault::NotText));
    assert_eq!(rt; fault_of(rt.alloc(), &[b'#', 195]), Some(LexFault::NotText));
    Ok(())
}

#[test]
fn comments_hold_any_character(rt: HostRuntime) -> Result<(), Fail> {
    assert!(rt; has_tokens(rt.alloc(), "# é $ \"\n".as_bytes(), &[]));
    Ok(())
}

#[test]
fn letters_outside_ascii_are_bad(rt: HostRuntime) -> Result<(), Fail> {
    let bad = Some(LexFault::BadToken { at: 2 });
    assert_eq!(rt; fault_of(rt.alloc(), "a é".as_bytes()), bad);
    assert_eq!(rt; fault_of(rt.alloc(), "abécd".as_bytes()), bad);
    Ok(())
}

#[test]
fn other_characters_are_bad(rt: HostRuntime) -> Result<(), Fail> {
    let bad = Some(LexFault::BadToken { at: 1 });
    for text in ["a$", " \"", "1|2", ";\u{0}", "a\u{c}b"].as_slice() {
        assert_eq!(rt; fault_of(rt.alloc(), text.as_bytes()), bad);
    }
    Ok(())
}
