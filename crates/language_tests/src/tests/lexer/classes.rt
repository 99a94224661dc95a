use design_lexer::{Class, Lexemes, lex};
use std::alloc::Global;
use std::test::Fail;

/// A token of each class, with the reserved words and the symbols in the order of the language's reference.
const TEXT: &str =
    "a 1 1.0 poset elements interface template catalogue choose mcdp provides requires row table instance ignore Nat up product max min Top { } [ ] ( ) < > <= >= = : ; , . / * + ^ - ->";

/// The classes of these tokens.
const CLASSES: [Class; 43] = [
    Class::Name,
    Class::Whole,
    Class::Decimal,
    Class::Poset,
    Class::Elements,
    Class::Interface,
    Class::Template,
    Class::Catalogue,
    Class::Choose,
    Class::Mcdp,
    Class::Provides,
    Class::Requires,
    Class::Row,
    Class::Table,
    Class::Instance,
    Class::Ignore,
    Class::Nat,
    Class::Up,
    Class::Product,
    Class::Max,
    Class::Min,
    Class::Top,
    Class::LeftBrace,
    Class::RightBrace,
    Class::LeftSquare,
    Class::RightSquare,
    Class::LeftRound,
    Class::RightRound,
    Class::Less,
    Class::Greater,
    Class::AtMost,
    Class::AtLeast,
    Class::Equals,
    Class::Colon,
    Class::Semicolon,
    Class::Comma,
    Class::Dot,
    Class::Slash,
    Class::Star,
    Class::Plus,
    Class::Caret,
    Class::Minus,
    Class::Arrow,
];

/// The number of classes that the next token is of.
fn classes_of(lexemes: &Lexemes<'_>) -> u32 {
    let classes: [Class; 43] = CLASSES;
    let mut count: u32 = 0;
    for class in classes.as_slice() {
        if lexemes.starts(*class) {
            count = count.saturating_add(1);
        }
    }
    count
}

/// How many of the first tokens are of their class, and of no other.
fn right(alloc: Global) -> u32 {
    let Ok(tokens) = lex(alloc, TEXT.as_bytes()) else {
        return 0;
    };
    let mut lexemes = Lexemes::of(TEXT.as_bytes(), &tokens);
    let classes: [Class; 43] = CLASSES;
    let mut count: u32 = 0;
    for class in classes.as_slice() {
        if !lexemes.starts(*class) || classes_of(&lexemes) != 1 {
            return count;
        }
        lexemes.skip();
        count = count.saturating_add(1);
    }
    count
}

#[test]
fn each_token_is_of_one_class(rt: HostRuntime) -> Result<(), Fail> {
    assert_eq!(rt; right(rt.alloc()), 43);
    Ok(())
}

/// The name of a unit that the text begins with.
fn unit_name(alloc: Global, text: &str) -> Option<(bool, u64, usize)> {
    let tokens = lex(alloc, text.as_bytes()).ok()?;
    let mut lexemes = Lexemes::of(text.as_bytes(), &tokens);
    let name = lexemes.unit_name(alloc).ok()?;
    Some((name.name.as_str() == "min", name.at, lexemes.left()))
}

#[test]
fn min_is_the_name_of_a_unit(rt: HostRuntime) -> Result<(), Fail> {
    assert_eq!(rt; unit_name(rt.alloc(), " min max"), Some((true, 1, 1)));
    assert_eq!(rt; unit_name(rt.alloc(), "kg"), Some((false, 0, 0)));
    assert_eq!(rt; unit_name(rt.alloc(), "max"), None);
    Ok(())
}
