ghost use Rattle.std.specs.Prelude.{◌≡◌, ◌+◌, ◌≤◌, ◌<◌, ◌*◌, ◌^◌, IfOk, length, take, drop};
ghost use Rattle.design_lexer.specs.Cut.{StandsIn};
ghost use Rattle.design_lexer.specs.Syntax.Classes as spec;
ghost use Rattle.design_lexer.specs.Syntax.Spelled as spelled;

use crate::syntax::class::Class;
use crate::token::{Token, TokenKind};
use crate::tree::Number;
use order_core::Text;
use std::alloc::{AllocError, Global};

/// The bytes of the token in its text.
fn bytes_of<'a>(text: &'a [u8], token: &Token) -> &'a [u8]
    requires { token.now.at + token.now.len ≤ length text.now }
    ensures { result.now ≡ take token.now.len (drop token.now.at text.now) }
{
    let (_, rest) = text.split_at(token.at as usize);
    let (bytes, _) = rest.split_at(token.len as usize);
    bytes
}

/// Whether the token of the text is of the class.
#[tactic(auto, unfolding(crate::specs::Syntax::Classes::is))]
pub fn is(text: &[u8], token: &Token, class: Class) -> bool
    requires { StandsIn text.now token.now }
    ensures { result ≡ spec.is class (spec.lexeme_of text.now token.now) }
{
    code(class.kind()) == code(token.kind)
        && (is_free(token.kind) || class.spelling().as_bytes() == bytes_of(text, token))
}

fn code(kind: TokenKind) -> u8
    ensures { result ≡ spec.code kind }
{
    match kind {
        TokenKind::Name => 0,
        TokenKind::Word => 1,
        TokenKind::Whole => 2,
        TokenKind::Decimal => 3,
        TokenKind::Symbol => 4,
    }
}

/// Whether tokens of the kind have bytes of their own.
fn is_free(kind: TokenKind) -> bool
    ensures { result ≡ spec.is_free kind }
{
    match kind {
        TokenKind::Name | TokenKind::Whole | TokenKind::Decimal => true,
        TokenKind::Word | TokenKind::Symbol => false,
    }
}

/// The bytes of the token, as a text of their own.
pub fn text_of(alloc: Global, text: &[u8], token: &Token) -> Result<Text, AllocError>
    requires { StandsIn text.now token.now }
    ensures { IfOk result (λ written. written ≡ (spec.lexeme_of text.now token.now).bytes) }
{
    match std::str::from_utf8(bytes_of(text, token)) {
        Ok(written) => Ok(Text::of(String::from_str(alloc, written)?)),
        Err(_) => unreachable!(),
    }
}

/// The number that the token spells.
pub fn number_of(text: &[u8], token: &Token) -> Number
    requires stands { StandsIn text.now token.now }
    requires short { token.now.len ≤ 21 }
    ensures { result ≡ spelled.number_of (spec.lexeme_of text.now token.now) }
{
    let bytes = bytes_of(text, token);
    Number {
        digits: digits(bytes),
        decimals: decimals(bytes),
    }
}

/// What the digits of the token stand for.
pub fn whole_of(text: &[u8], token: &Token) -> u128
    requires stands { StandsIn text.now token.now }
    requires short { token.now.len ≤ 21 }
    ensures { result ≡ spelled.digits_of (spec.lexeme_of text.now token.now).bytes }
{
    digits(bytes_of(text, token))
}

/// What the digits stand for, without the point.
fn digits(bytes: &[u8]) -> u128
    requires { length bytes.now ≤ 21 }
    ensures { result ≡ spelled.digits_of bytes.now }
{
    let mut value = 0;
    for byte in bytes {
        value = with_digit(value, *byte);
    }
    value
}

/// The value with one digit more. A point changes nothing.
fn with_digit(value: u128, byte: u8) -> u128
    requires { value * 10 + 255 < 2 ^ 128 }
    ensures { result ≡ spelled.with_digit value byte }
{
    if byte == b'.' {
        value
    } else {
        value * 10 + u128::from(byte.saturating_sub(b'0'))
    }
}

/// How many digits follow the point.
fn decimals(bytes: &[u8]) -> u8
    requires { length bytes.now ≤ 21 }
    ensures { result ≡ spelled.decimals_of bytes.now }
{
    for (at, byte) in bytes.iter().enumerate() {
        if *byte == b'.' {
            return (bytes.len() - at - 1) as u8;
        }
    }
    0
}
