ghost use Rattle.std.specs.Prelude.{◌≡◌};
ghost use Rattle.design_lexer.specs.Syntax.Classes as spec;

use crate::token::TokenKind;

/// What the grammar asks of one token: a name, a number of a form, or one reserved word or symbol.
#[derive(Clone, Copy)]
pub enum Class {
    Name,
    Whole,
    Decimal,
    Poset,
    Elements,
    Interface,
    Template,
    Catalogue,
    Choose,
    Mcdp,
    Provides,
    Requires,
    Row,
    Table,
    Instance,
    Ignore,
    Nat,
    Up,
    Product,
    Max,
    Min,
    Top,
    LeftBrace,
    RightBrace,
    LeftSquare,
    RightSquare,
    LeftRound,
    RightRound,
    Less,
    Greater,
    AtMost,
    AtLeast,
    Equals,
    Colon,
    Semicolon,
    Comma,
    Dot,
    Slash,
    Star,
    Plus,
    Caret,
    Minus,
    Arrow,
}

impl Class {
    /// The kind of its tokens.
    pub fn kind(self) -> TokenKind
        ensures { result ≡ spec.kind_of self }
    {
        match self {
            Class::Name => TokenKind::Name,
            Class::Whole => TokenKind::Whole,
            Class::Decimal => TokenKind::Decimal,
            Class::Poset
            | Class::Elements
            | Class::Interface
            | Class::Template
            | Class::Catalogue
            | Class::Choose
            | Class::Mcdp
            | Class::Provides
            | Class::Requires
            | Class::Row
            | Class::Table
            | Class::Instance
            | Class::Ignore
            | Class::Nat
            | Class::Up
            | Class::Product
            | Class::Max
            | Class::Min
            | Class::Top => TokenKind::Word,
            Class::LeftBrace
            | Class::RightBrace
            | Class::LeftSquare
            | Class::RightSquare
            | Class::LeftRound
            | Class::RightRound
            | Class::Less
            | Class::Greater
            | Class::AtMost
            | Class::AtLeast
            | Class::Equals
            | Class::Colon
            | Class::Semicolon
            | Class::Comma
            | Class::Dot
            | Class::Slash
            | Class::Star
            | Class::Plus
            | Class::Caret
            | Class::Minus
            | Class::Arrow => TokenKind::Symbol,
        }
    }

    /// The bytes of one of its tokens. A reserved word and a symbol have no others.
    pub fn spelling(self) -> &'static str
        ensures { result.now ≡ spec.spelling_of self }
    {
        match self {
            Class::Name => "a",
            Class::Whole => "1",
            Class::Decimal => "1.0",
            Class::Poset => "poset",
            Class::Elements => "elements",
            Class::Interface => "interface",
            Class::Template => "template",
            Class::Catalogue => "catalogue",
            Class::Choose => "choose",
            Class::Mcdp => "mcdp",
            Class::Provides => "provides",
            Class::Requires => "requires",
            Class::Row => "row",
            Class::Table => "table",
            Class::Instance => "instance",
            Class::Ignore => "ignore",
            Class::Nat => "Nat",
            Class::Up => "up",
            Class::Product => "product",
            Class::Max => "max",
            Class::Min => "min",
            Class::Top => "Top",
            Class::LeftBrace => "{",
            Class::RightBrace => "}",
            Class::LeftSquare => "[",
            Class::RightSquare => "]",
            Class::LeftRound => "(",
            Class::RightRound => ")",
            Class::Less => "<",
            Class::Greater => ">",
            Class::AtMost => "<=",
            Class::AtLeast => ">=",
            Class::Equals => "=",
            Class::Colon => ":",
            Class::Semicolon => ";",
            Class::Comma => ",",
            Class::Dot => ".",
            Class::Slash => "/",
            Class::Star => "*",
            Class::Plus => "+",
            Class::Caret => "^",
            Class::Minus => "-",
            Class::Arrow => "->",
        }
    }
}
