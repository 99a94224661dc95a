use design_lexer::lex;
use design_parser::{FileKind, SyntaxFault, parse_file, parse_values};
use std::alloc::Global;

mod cut;
mod depths;
mod examples;
mod queries;
mod rows;
mod signs;
mod trees;

/// What became of a text.
#[derive(Clone, Copy, Debug, PartialEq, Eq)]
enum Outcome {
    /// A tree is written by its tokens.
    Written,
    /// It is refused at this place.
    At(u64),
    /// It has no tokens, or memory was refused.
    Unread,
}

/// What becomes of the text as a file of the kind.
fn file_outcome(alloc: Global, kind: FileKind, text: &[u8]) -> Outcome {
    match lex(alloc, text) {
        Ok(tokens) => told(parse_file(alloc, kind, text, &tokens).err()),
        Err(_) => Outcome::Unread,
    }
}

/// What becomes of the text as a query.
fn query_outcome(alloc: Global, text: &[u8]) -> Outcome {
    match lex(alloc, text) {
        Ok(tokens) => told(parse_values(alloc, text, &tokens).err()),
        Err(_) => Outcome::Unread,
    }
}

fn told(fault: Option<SyntaxFault>) -> Outcome {
    match fault {
        None => Outcome::Written,
        Some(SyntaxFault::At { at }) => Outcome::At(at),
        Some(SyntaxFault::Memory) => Outcome::Unread,
    }
}
