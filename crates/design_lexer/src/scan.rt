ghost use Rattle.std.specs.Prelude.{◌≡◌, ◌++◌, ◌∷◌, [], IfOk, IfErr, OnOk};
ghost use Rattle.std.specs.Str.{IsUtf8};
ghost use Rattle.design_lexer.specs.Cut as spec;

use crate::piece::{Piece, PieceKind, fit_piece};
use crate::token::Token;
use order_core::List;
use std::alloc::{AllocError, Global};

/// Why a text has no tokens.
#[derive(Clone, Copy, Debug, PartialEq, Eq)]
pub enum LexFault {
    /// The bytes aren't UTF-8.
    NotText,
    /// At this place the first piece stands that is no token, space or comment.
    BadToken { at: u64 },
    /// Memory was refused.
    Memory,
}

/// The tokens of the text.
pub fn lex(alloc: Global, text: &[u8]) -> Result<List<Token>, LexFault>
    ensures tokens { IfOk result (λ tokens. IsUtf8 text.now × spec.AreTokens text.now tokens) }
    ensures refused { IfErr result (λ fault. spec.IsRefused text.now fault) }
{
    if std::str::from_utf8(text).is_err() {
        return Err(LexFault::NotText);
    }
    let mut at = 0;
    let mut tokens = Vec::new(alloc);
    while at < text.len() {
        let (_, rest) = text.split_at(at);
        match fit_piece(rest) {
            None => return Err(LexFault::BadToken { at: at as u64 }),
            Some(piece) => match keep(&mut tokens, piece, at) {
                Ok(()) => at += piece.len,
                Err(_) => return Err(LexFault::Memory),
            },
        }
    }
    Ok(List::of(tokens))
}

/// Adds the piece at this place, if it is a token.
fn keep(tokens: &mut Vec<Token>, piece: Piece, at: usize) -> Result<(), AllocError>
    ensures { OnOk result (tokens.new.items ≡ tokens.old.items ++ spec.tokens_of at (piece ∷ [])) }
{
    if let PieceKind::Token(kind) = piece.kind {
        tokens.push(Token {
            kind,
            at: at as u64,
            len: piece.len as u64,
        })?;
    }
    Ok(())
}
