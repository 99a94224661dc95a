use super::{decimal, has_tokens, is_one, name, symbol, whole, word};
use design_lexer::TokenKind;
use std::test::Fail;

#[test]
fn each_reserved_word_is_a_word(rt: HostRuntime) -> Result<(), Fail> {
    let words: [&str; 19] = [
        "poset",
        "elements",
        "interface",
        "template",
        "catalogue",
        "choose",
        "mcdp",
        "provides",
        "requires",
        "row",
        "table",
        "instance",
        "ignore",
        "Nat",
        "up",
        "product",
        "max",
        "min",
        "Top",
    ];
    for text in words.as_slice() {
        assert!(rt; is_one(rt.alloc(), TokenKind::Word, text.as_bytes()));
    }
    Ok(())
}

#[test]
fn other_names_are_names(rt: HostRuntime) -> Result<(), Fail> {
    let names: [&str; 8] = ["x", "_", "_1", "A9z_", "minimum", "Min", "nat", "posets"];
    for text in names.as_slice() {
        assert!(rt; is_one(rt.alloc(), TokenKind::Name, text.as_bytes()));
    }
    Ok(())
}

#[test]
fn spaces_and_comments_are_dropped(rt: HostRuntime) -> Result<(), Fail> {
    let two = [word(0, 3), name(9, 1)];
    assert!(rt; has_tokens(rt.alloc(), b"min # x\r\ny", two.as_slice()));
    assert!(rt; has_tokens(rt.alloc(), b"min \t\r\n\n\ny", two.as_slice()));
    let one = [name(0, 1)];
    assert!(rt; has_tokens(rt.alloc(), b"x# to the end", one.as_slice()));
    assert!(rt; has_tokens(rt.alloc(), b"x#\ra", one.as_slice()));
    assert!(rt; has_tokens(rt.alloc(), b"#", &[]));
    assert!(rt; has_tokens(rt.alloc(), b"", &[]));
    Ok(())
}

#[test]
fn numbers_and_points(rt: HostRuntime) -> Result<(), Fail> {
    assert!(rt; is_one(rt.alloc(), TokenKind::Whole, b"007"));
    assert!(rt; is_one(rt.alloc(), TokenKind::Decimal, b"0.50"));
    assert!(rt; has_tokens(rt.alloc(), b"1.", [whole(0, 1), symbol(1, 1)].as_slice()));
    assert!(rt; has_tokens(rt.alloc(), b".5", [symbol(0, 1), whole(1, 1)].as_slice()));
    let chain = [decimal(0, 3), symbol(3, 1), whole(4, 1)];
    assert!(rt; has_tokens(rt.alloc(), b"1.5.2", chain.as_slice()));
    Ok(())
}

#[test]
fn numbers_end_before_names(rt: HostRuntime) -> Result<(), Fail> {
    assert!(rt; has_tokens(rt.alloc(), b"12kg", [whole(0, 2), name(2, 2)].as_slice()));
    assert!(rt; has_tokens(rt.alloc(), b"kg12", [name(0, 4)].as_slice()));
    let point = [whole(0, 1), symbol(1, 1), name(2, 1)];
    assert!(rt; has_tokens(rt.alloc(), b"1.a", point.as_slice()));
    Ok(())
}
