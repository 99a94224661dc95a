use super::{Outcome, file_outcome};
use design_lexer::{Token, lex};
use design_parser::FileKind;
use std::alloc::{AllocError, Global};
use std::test::Fail;

/// A file that is written, with each production at least once in all of them.
#[derive(Clone, Copy)]
struct Sample {
    kind: FileKind,
    text: &'static str,
}

const SAMPLES: [Sample; 8] = [
    Sample {
        kind: FileKind::Poset,
        text: "poset { elements a, b, c; a <= b; b <= c <= a; }",
    },
    Sample {
        kind: FileKind::Poset,
        text: "poset{elements;}",
    },
    Sample {
        kind: FileKind::Interface,
        text: "interface { provides p [Nat]; requires q [kg.m/s^2]; requires u [up p]; }",
    },
    Sample {
        kind: FileKind::Design,
        text: "catalogue { provides a [product(min^-2, poset p, product(Nat))]; row r: 1/2 kg, Top -> p:a, p:{a, b}, p:{}, <1.5, <2>>; row s: -> ; }",
    },
    Sample {
        kind: FileKind::Design,
        text: "catalogue { requires a [Nat]; table t; }",
    },
    Sample {
        kind: FileKind::Design,
        text: "choose { one: d; two: t<x: e, y: s<z: f>>; }",
    },
    Sample {
        kind: FileKind::Design,
        text: "mcdp { requires b [Nat]; instance s = t<x: d>; ignore s.p; s.a >= 2 min * (b + s.c) + max(1, min(b, 2)); b >= <1, p:a, p:{}>; provides c [s]; }",
    },
    Sample {
        kind: FileKind::Template,
        text: "template <x: i, y: j> mcdp { instance p = x; }",
    },
];

/// The tokens of the text, or none where it has no tokens.
fn tokens_of(alloc: Global, text: &[u8]) -> Vec<Token> {
    match lex(alloc, text) {
        Ok(tokens) => tokens.into_vec(),
        Err(_) => Vec::new(alloc),
    }
}

/// The text up to the place.
fn front(text: &[u8], at: u64) -> &[u8] {
    match text.split_at_checked(at as usize) {
        Some((front, _)) => front,
        None => text,
    }
}

/// The text from the place on.
fn back(text: &[u8], at: u64) -> &[u8] {
    match text.split_at_checked(at as usize) {
        Some((_, back)) => back,
        None => text,
    }
}

/// The first end of a token but the last such that the text up to there isn't refused at its length.
fn wrong_cut(alloc: Global, sample: Sample) -> Option<u64> {
    let text = sample.text.as_bytes();
    let tokens = tokens_of(alloc, text);
    let mut cut = 0;
    for token in tokens.as_slice() {
        if file_outcome(alloc, sample.kind, front(text, cut)) != Outcome::At(cut) {
            return Some(cut);
        }
        cut = token.at.saturating_add(token.len);
    }
    None
}

/// The text with another word in the place of the token.
fn replaced(alloc: Global, text: &[u8], token: &Token, word: &str) -> Result<Vec<u8>, AllocError> {
    let mut made = Vec::new(alloc);
    made.extend_from_slice(front(text, token.at))?;
    made.extend_from_slice(word.as_bytes())?;
    made.extend_from_slice(back(text, token.at.saturating_add(token.len)))?;
    Ok(made)
}

/// The place of the first token such that the text with a word that fits nowhere in its place isn't refused there.
fn wrong_place(alloc: Global, sample: Sample, word: &str) -> Result<Option<u64>, AllocError> {
    let text = sample.text.as_bytes();
    let tokens = tokens_of(alloc, text);
    for token in tokens.as_slice() {
        let made = replaced(alloc, text, token, word)?;
        let want = Outcome::At(token.at.saturating_add(1));
        if file_outcome(alloc, sample.kind, made.as_slice()) != want {
            return Ok(Some(token.at));
        }
    }
    Ok(None)
}

/// A word that fits nowhere in files of the kind.
fn misfit(kind: FileKind) -> &'static str {
    match kind {
        FileKind::Poset => " row ",
        _ => " elements ",
    }
}

#[test]
fn samples_are_written(rt: HostRuntime) -> Result<(), Fail> {
    let samples: [Sample; 8] = SAMPLES;
    for sample in samples.as_slice() {
        assert_eq!(rt;
            file_outcome(rt.alloc(), sample.kind, sample.text.as_bytes()),
            Outcome::Written
        );
    }
    Ok(())
}

#[test]
fn each_front_is_refused_at_its_length(rt: HostRuntime) -> Result<(), Fail> {
    let samples: [Sample; 8] = SAMPLES;
    for sample in samples.as_slice() {
        assert_eq!(rt; wrong_cut(rt.alloc(), *sample), None);
    }
    Ok(())
}

#[test]
fn each_misfit_is_refused_at_its_place(rt: HostRuntime) -> Result<(), Fail> {
    let samples: [Sample; 8] = SAMPLES;
    for sample in samples.as_slice() {
        assert_eq!(rt;
            wrong_place(rt.alloc(), *sample, misfit(sample.kind))?,
            None
        );
    }
    Ok(())
}
