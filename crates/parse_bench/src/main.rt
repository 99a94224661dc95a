//! Reads a design from standard input, and prints whether its tokens write one. `bench/parser.py` runs it.
#![tactic(auto)]

use design_lexer::lex;
use design_parser::{FileKind, SyntaxFault, parse_file};
use std::alloc::Global;
use std::io::{self, Read};

/// What became of the text.
enum Answer {
    Written,
    At(u64),
    NoTokens,
    NoMemory,
}

fn answer_to(alloc: Global, text: &[u8]) -> Answer {
    let Ok(tokens) = lex(alloc, text) else {
        return Answer::NoTokens;
    };
    match parse_file(alloc, FileKind::Design, text, &tokens).err() {
        None => Answer::Written,
        Some(SyntaxFault::At { at }) => Answer::At(at),
        Some(SyntaxFault::Memory) => Answer::NoMemory,
    }
}

fn main(rt: HostRuntime) -> io::Result<()> {
    let mut text = Vec::new(rt.alloc());
    rt.reader().read_to_end(&mut text)?;
    match answer_to(rt.alloc(), text.as_slice()) {
        Answer::Written => println!(rt; "written"),
        Answer::At(at) => println!(rt; "syntax at {at}"),
        Answer::NoTokens => println!(rt; "no tokens"),
        Answer::NoMemory => println!(rt; "out of memory"),
    }
}
