use super::is_one;
use design_lexer::{LexFault, TokenKind, lex};
use std::alloc::Global;
use std::test::Fail;

/// Whether the first bad token of the text is at this place.
fn is_bad_at(alloc: Global, text: &[u8], want: u64) -> bool {
    match lex(alloc, text) {
        Err(LexFault::BadToken { at }) => at == want,
        _ => false,
    }
}

#[test]
fn names_have_at_most_64_bytes(rt: HostRuntime) -> Result<(), Fail> {
    let longest = [b'a'; 64];
    assert!(rt; is_one(rt.alloc(), TokenKind::Name, longest.as_slice()));
    let too_long = [b'a'; 65];
    assert!(rt; is_bad_at(rt.alloc(), too_long.as_slice(), 0));
    Ok(())
}

#[test]
fn whole_numbers_have_at_most_20_digits(rt: HostRuntime) -> Result<(), Fail> {
    assert!(rt; is_one(rt.alloc(), TokenKind::Whole, b"12345678901234567890"));
    assert!(rt; is_bad_at(rt.alloc(), b"123456789012345678901", 0));
    assert!(rt; is_bad_at(rt.alloc(), b"000000000000000000001", 0));
    Ok(())
}

#[test]
fn decimals_have_at_most_20_digits(rt: HostRuntime) -> Result<(), Fail> {
    assert!(rt; is_one(rt.alloc(), TokenKind::Decimal, b"1234567890.1234567890"));
    assert!(rt; is_bad_at(rt.alloc(), b"1234567890.12345678901", 0));
    assert!(rt; is_bad_at(rt.alloc(), b"12345678901234567890.1", 0));
    Ok(())
}

#[test]
fn too_long_tokens_are_bad_at_their_start(rt: HostRuntime) -> Result<(), Fail> {
    assert!(rt; is_bad_at(rt.alloc(), b"x = 123456789012345678901;", 4));
    Ok(())
}
