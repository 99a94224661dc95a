ghost use Rattle.std.specs.Prelude.{◌≡◌, ◌≤◌, ◌<◌, ◌+◌, ◌-◌, ◌^◌, length, map};
ghost use Rattle.design_lexer.specs.Pieces as spec;
ghost use Rattle.design_lexer.specs.Scan as scan;

use crate::token::TokenKind;

/// The reserved words.
const RESERVED: [&str; 19] = [
    "poset",
    "elements",
    "interface",
    "template",
    "catalogue",
    "choose",
    "mcdp",
    "provides",
    "requires",
    "row",
    "table",
    "instance",
    "ignore",
    "Nat",
    "up",
    "product",
    "max",
    "min",
    "Top",
];

/// What a piece of a text is. Spaces and comments are dropped.
#[derive(Clone, Copy, Debug)]
pub enum PieceKind {
    /// Spaces, tabs, line feeds and carriage returns.
    Spaces,
    /// A comment.
    Comment,
    /// A token.
    Token(TokenKind),
}

/// A piece of a text.
#[derive(Clone, Copy, Debug)]
pub struct Piece {
    pub kind: PieceKind,
    /// How many bytes it has.
    pub len: usize,
}

/// What the first byte of a piece tells of it.
#[derive(Clone, Copy, Debug)]
pub enum Start {
    Space,
    Hash,
    Letter,
    Digit,
    Sign,
}

fn is_space(byte: u8) -> bool
    ensures { result ≡ spec.is_space byte }
{
    byte == b' ' || (byte == b'\t' || (byte == b'\n' || byte == b'\r'))
}

fn is_letter(byte: u8) -> bool
    ensures { result ≡ spec.is_letter byte }
{
    (b'a' <= byte && byte <= b'z') || ((b'A' <= byte && byte <= b'Z') || byte == b'_')
}

fn is_digit(byte: u8) -> bool
    ensures { result ≡ spec.is_digit byte }
{
    b'0' <= byte && byte <= b'9'
}

/// Whether the byte alone is a symbol.
fn is_sign(byte: u8) -> bool
    ensures { result ≡ spec.is_sign byte }
{
    let signs: &[u8] = b"{}[]()<>=:;,./*+^-";
    signs.contains(&byte)
}

/// Whether the two bytes are a symbol.
fn is_pair(first: u8, second: u8) -> bool
    ensures { result ≡ spec.is_pair first second }
{
    (first == b'<' && second == b'=')
        || ((first == b'>' && second == b'=') || (first == b'-' && second == b'>'))
}

/// Whether the bytes are a reserved word.
#[tactic(auto, unfolding(crate::specs::Pieces::is_reserved))]
fn is_reserved(bytes: &[u8]) -> bool
    ensures { result ≡ spec.is_reserved bytes.now }
{
    let words: [&str; 19] = RESERVED;
    is_one_of(words.as_slice(), bytes)
}

/// Whether the bytes are one of the words.
fn is_one_of(words: &[&str], bytes: &[u8]) -> bool
    ensures { result ≡ spec.is_one_of (map (λ word. word.now) words.now) bytes.now }
{
    for word in words {
        if word.as_bytes() == bytes {
            return true;
        }
    }
    false
}

/// What the byte tells of a piece that begins with it.
#[tactic(auto, unfolding(crate::specs::Scan::start_of))]
fn start_of(byte: u8) -> Option<Start>
    ensures { result ≡ scan.start_of byte }
{
    if is_space(byte) {
        return Some(Start::Space);
    }
    if byte == b'#' {
        return Some(Start::Hash);
    }
    if is_letter(byte) {
        return Some(Start::Letter);
    }
    if is_digit(byte) {
        return Some(Start::Digit);
    }
    if is_sign(byte) {
        return Some(Start::Sign);
    }
    None
}

/// Whether the byte may follow in a piece that begins so.
#[tactic(auto, unfolding(crate::specs::Scan::goes_on))]
fn goes_on(start: Start, byte: u8) -> bool
    ensures { result ≡ scan.goes_on start byte }
{
    match start {
        Start::Space => is_space(byte),
        Start::Hash => byte != b'\n',
        Start::Letter => is_letter(byte) || is_digit(byte),
        Start::Digit => is_digit(byte),
        Start::Sign => false,
    }
}

/// How many of the first bytes may stand in a piece that begins so.
fn run(start: Start, bytes: &[u8]) -> usize
    ensures run { result ≡ scan.run (scan.goes_on start) bytes.now }
    ensures within { result ≤ length bytes.now }
{
    for (at, byte) in bytes.iter().enumerate() {
        if !goes_on(start, *byte) {
            return at;
        }
    }
    bytes.len()
}

/// The longest piece that the bytes begin with, unless it is too long.
pub fn fit_piece(bytes: &[u8]) -> Option<Piece>
    ensures { result ≡ scan.fit_piece bytes.now }
{
    match bytes {
        [] => None,
        [first, ..] => match start_of(*first) {
            None => None,
            Some(start) => fit(longest_piece(start, bytes)),
        },
    }
}

/// The piece, unless it is too long.
fn fit(piece: Piece) -> Option<Piece>
    ensures { result ≡ scan.fit piece }
{
    if is_too_long(piece) {
        None
    } else {
        Some(piece)
    }
}

/// Whether a name has more than 64 bytes, or a number more than 20 digits.
fn is_too_long(piece: Piece) -> bool
    ensures { result ≡ spec.is_too_long piece }
{
    match piece.kind {
        PieceKind::Token(TokenKind::Name) => 64 < piece.len,
        PieceKind::Token(TokenKind::Whole) => 20 < piece.len,
        PieceKind::Token(TokenKind::Decimal) => 21 < piece.len,
        _ => false,
    }
}

/// The longest piece that the bytes begin with, as the first of them tells.
fn longest_piece(start: Start, bytes: &[u8]) -> Piece
    ensures { result ≡ scan.longest_piece start bytes.now }
{
    match start {
        Start::Space => Piece {
            kind: PieceKind::Spaces,
            len: run(start, bytes),
        },
        Start::Hash => Piece {
            kind: PieceKind::Comment,
            len: run(start, bytes),
        },
        Start::Letter => word(bytes),
        Start::Digit => number(bytes),
        Start::Sign => Piece {
            kind: PieceKind::Token(TokenKind::Symbol),
            len: symbol_len(bytes),
        },
    }
}

/// The name or reserved word that the bytes begin with.
fn word(bytes: &[u8]) -> Piece
    ensures { result ≡ scan.word bytes.now }
{
    let len = run(Start::Letter, bytes);
    let (word, _) = bytes.split_at(len);
    Piece {
        kind: PieceKind::Token(word_kind(word)),
        len,
    }
}

fn word_kind(word: &[u8]) -> TokenKind
    ensures { result ≡ scan.word_kind word.now }
{
    if is_reserved(word) {
        TokenKind::Word
    } else {
        TokenKind::Name
    }
}

/// The number that the bytes begin with.
fn number(bytes: &[u8]) -> Piece
    ensures { result ≡ scan.number bytes.now }
{
    let whole = run(Start::Digit, bytes);
    let (_, rest) = bytes.split_at(whole);
    let more = fraction(rest);
    Piece {
        kind: PieceKind::Token(number_kind(more)),
        len: whole + more,
    }
}

fn number_kind(fraction: usize) -> TokenKind
    ensures { result ≡ scan.number_kind fraction }
{
    if fraction == 0 {
        TokenKind::Whole
    } else {
        TokenKind::Decimal
    }
}

/// How many of the first bytes are a point and digits after it.
fn fraction(bytes: &[u8]) -> usize
    ensures fraction { result ≡ scan.fraction bytes.now }
    ensures within { result ≤ length bytes.now }
{
    match bytes {
        [point, digits @ ..] => {
            if *point == b'.' {
                point_and(run(Start::Digit, digits))
            } else {
                0
            }
        }
        [] => 0,
    }
}

/// How many bytes a point and these digits have. A point without digits is none.
fn point_and(digits: usize) -> usize
    requires { digits < 2 ^ 64 - 1 }
    ensures point { result ≡ scan.point_and digits }
    ensures within { result ≤ digits + 1 }
{
    if digits == 0 { 0 } else { digits + 1 }
}

/// How many bytes the symbol has that the bytes begin with.
fn symbol_len(bytes: &[u8]) -> usize
    ensures { result ≡ scan.symbol_len bytes.now }
{
    match bytes {
        [first, second, ..] => { if is_pair(*first, *second) { 2 } else { 1 } }
        _ => 1,
    }
}
