use design_lexer::{Token, TokenKind, lex};
use std::alloc::Global;

mod classes;
mod faults;
mod limits;
mod symbols;
mod trees;
mod words;

/// Whether these are the tokens of the text.
fn has_tokens(alloc: Global, text: &[u8], want: &[Token]) -> bool {
    match lex(alloc, text) {
        Ok(tokens) => tokens.items() == want,
        Err(_) => false,
    }
}

/// Whether the text is one token of the kind.
fn is_one(alloc: Global, kind: TokenKind, text: &[u8]) -> bool {
    has_tokens(alloc, text, &[token(kind, 0, text.len() as u64)])
}

fn token(kind: TokenKind, at: u64, len: u64) -> Token {
    Token { kind, at, len }
}

fn name(at: u64, len: u64) -> Token {
    token(TokenKind::Name, at, len)
}

fn word(at: u64, len: u64) -> Token {
    token(TokenKind::Word, at, len)
}

fn whole(at: u64, len: u64) -> Token {
    token(TokenKind::Whole, at, len)
}

fn decimal(at: u64, len: u64) -> Token {
    token(TokenKind::Decimal, at, len)
}

fn symbol(at: u64, len: u64) -> Token {
    token(TokenKind::Symbol, at, len)
}
