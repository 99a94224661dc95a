ghost use Rattle.std.specs.Prelude.{◌≡◌, IfOk, IsTrue, Some};
ghost use Rattle.design_lexer.specs.Cut.{AreTokens};
ghost use Rattle.fault_list.specs.FirstBad.{AnswersBy};
ghost use Rattle.library_files.specs.Names.{ending_of, is_recognised, stem_of};
ghost use Rattle.library_files.specs.Parsed as spec;

use crate::name::{Ending, parts_of};
use design_lexer::{File, LexFault, Token, lex};
use design_parser::{FileKind, SyntaxFault, parse_file};
use design_world::MemoryFile;
use fault_list::{Fault, FaultKind, StageFault, Stop, in_file};
use name_table::{SourceFile, Table};
use order_core::{List, NoMemory, Text};
use std::alloc::Global;

/// What is made of one file.
#[derive(Drop)]
pub enum Made {
    Source(SourceFile),
    Table(Table),
}

/// The tokens of a text.
fn tokens_of(alloc: Global, bytes: &[u8]) -> Result<List<Token>, Stop<Fault>>
    ensures { AnswersBy (spec.IsCut bytes.now) (spec.HasCutFault bytes.now) result }
{
    match lex(alloc, bytes) {
        Ok(tokens) => Ok(tokens),
        Err(LexFault::NotText) => Err(Stop::At(Fault {
            kind: FaultKind::NotText,
            at: 0,
        })),
        Err(LexFault::BadToken { at }) => Err(Stop::At(Fault {
            kind: FaultKind::BadToken,
            at,
        })),
        Err(LexFault::Memory) => Err(Stop::Memory),
    }
}

/// The tree that the tokens of a text write, as a file of the kind.
fn parsed(
    alloc: Global,
    kind: FileKind,
    bytes: &[u8],
    tokens: &List<Token>,
) -> Result<File, Stop<Fault>>
    requires { AreTokens bytes.now tokens.now }
    ensures { AnswersBy (spec.AreWritten kind bytes.now tokens.now) (spec.HasSyntaxFault kind bytes.now tokens.now) result }
{
    match parse_file(alloc, kind, bytes, tokens) {
        Ok(tree) => Ok(tree),
        Err(SyntaxFault::At { at }) => Err(Stop::At(Fault {
            kind: FaultKind::Syntax,
            at,
        })),
        Err(SyntaxFault::Memory) => Err(Stop::Memory),
    }
}

/// The tree that a text writes, as a file of the kind.
fn tree_of(alloc: Global, kind: FileKind, bytes: &[u8]) -> Result<File, Stop<Fault>>
    ensures { AnswersBy (spec.Writes kind bytes.now) (spec.HasFault kind bytes.now) result }
{
    let tokens = match tokens_of(alloc, bytes) {
        Ok(tokens) => tokens,
        Err(stop) => return Err(stop),
    };
    parsed(alloc, kind, bytes, &tokens)
}

/// A file's name without its ending, and its ending.
fn parts(alloc: Global, name: &Text) -> Result<(Text, Ending), NoMemory>
    requires { IsTrue (is_recognised name.now) }
    ensures stem { IfOk result (λ parts. parts.0 ≡ stem_of name.now) }
    ensures ending { IfOk result (λ parts. ending_of name.now ≡ Some parts.1) }
{
    match parts_of(name.as_str()) {
        Some((stem, ending)) => match String::from_str(alloc, stem) {
            Ok(stem) => Ok((Text::of(stem), ending)),
            Err(_) => Err(NoMemory),
        },
        None => unreachable!(),
    }
}

/// What is made of a file whose name has this stem and ending.
fn made_with(
    alloc: Global,
    file: MemoryFile,
    stem: Text,
    ending: Ending,
) -> Result<Made, StageFault>
    requires stem { stem ≡ stem_of file.name }
    requires ending { ending_of file.name ≡ Some ending }
    ensures { AnswersBy (spec.IsMade file) (spec.HasTextFault file) result }
{
    let MemoryFile { name, bytes } = file;
    match ending {
        Ending::Tree(kind) => match tree_of(alloc, kind, bytes.items()) {
            Ok(tree) => Ok(Made::Source(SourceFile { name, stem, tree })),
            Err(stop) => Err(in_file(alloc, &name, stop)),
        },
        Ending::Table => Ok(Made::Table(Table { name, stem, bytes })),
    }
}

/// What is made of a file.
pub fn made_of(alloc: Global, file: MemoryFile) -> Result<Made, StageFault>
    requires { IsTrue (is_recognised file.name) }
    ensures { AnswersBy (spec.IsMade file) (spec.HasTextFault file) result }
{
    match parts(alloc, &file.name) {
        Ok((stem, ending)) => made_with(alloc, file, stem, ending),
        Err(NoMemory) => Err(Stop::Memory),
    }
}
