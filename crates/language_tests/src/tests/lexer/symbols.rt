use super::{has_tokens, is_one, name, symbol};
use design_lexer::TokenKind;
use std::test::Fail;

#[test]
fn each_symbol_is_a_token(rt: HostRuntime) -> Result<(), Fail> {
    let symbols: [&str; 21] = [
        "{", "}", "[", "]", "(", ")", "<", ">", "<=", ">=", "=", ":", ";", ",", ".", "/", "*", "+",
        "^", "-", "->",
    ];
    for text in symbols.as_slice() {
        assert!(rt; is_one(rt.alloc(), TokenKind::Symbol, text.as_bytes()));
    }
    Ok(())
}

#[test]
fn longer_symbols_come_first(rt: HostRuntime) -> Result<(), Fail> {
    let want = [
        name(0, 1),
        symbol(1, 2),
        name(3, 1),
        symbol(4, 1),
        name(5, 1),
    ];
    assert!(rt; has_tokens(rt.alloc(), b"a<=b<c", want.as_slice()));
    assert!(rt; has_tokens(rt.alloc(), b"a>=b>c", want.as_slice()));
    assert!(rt; has_tokens(rt.alloc(), b"a->b-c", want.as_slice()));
    Ok(())
}

#[test]
fn symbols_are_cut_from_the_left(rt: HostRuntime) -> Result<(), Fail> {
    let long_first = [symbol(0, 2), symbol(2, 1)];
    assert!(rt; has_tokens(rt.alloc(), b"<==", long_first.as_slice()));
    let short_first = [symbol(0, 1), symbol(1, 2)];
    assert!(rt; has_tokens(rt.alloc(), b"-->", short_first.as_slice()));
    assert!(rt; has_tokens(rt.alloc(), b">>=", short_first.as_slice()));
    let singles = [symbol(0, 1), symbol(1, 1)];
    assert!(rt; has_tokens(rt.alloc(), b"=>", singles.as_slice()));
    assert!(rt; has_tokens(rt.alloc(), b"<-", singles.as_slice()));
    Ok(())
}
