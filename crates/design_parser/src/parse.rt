ghost use Rattle.std.specs.Prelude.{◌≡◌, Ok, IfOk, IfErr, length};
ghost use Rattle.design_lexer.specs.Cut.{AreTokens};
ghost use Rattle.design_lexer.specs.Syntax.Classes.{lexemes_of};
ghost use Rattle.design_lexer.specs.Syntax.Faults.{FailsAt};
ghost use Rattle.design_lexer.specs.Syntax.Gives.{Gives};
ghost use Rattle.design_lexer.specs.Syntax.Reading.{whole};
ghost use Rattle.design_parser.specs.Answers.{IfAt};
ghost use Rattle.design_parser.specs.Grammar as grammar;
ghost use Rattle.design_parser.specs.Readers as reader;

use crate::files::file;
use crate::values::maybe_cells;
use design_lexer::{File, Lexemes, ReadFault, Token, ValueTree};
use order_core::List;
use std::alloc::Global;

/// What a file may be.
#[derive(Clone, Copy, Debug, PartialEq, Eq)]
pub enum FileKind {
    Poset,
    Interface,
    Design,
    Template,
}

/// Why tokens write nothing.
#[derive(Clone, Copy, Debug, PartialEq, Eq)]
pub enum SyntaxFault {
    /// The place of the first token such that no accepted text begins with the tokens up to and with it, or the text's length.
    At { at: u64 },
    /// Memory was refused.
    Memory,
}

/// The file of the kind that the tokens of the text write.
pub fn parse_file(
    alloc: Global,
    kind: FileKind,
    text: &[u8],
    tokens: &List<Token>,
) -> Result<File, SyntaxFault>
    requires { AreTokens text.now tokens.now }
    ensures written { IfOk result (grammar.Written kind (lexemes_of text.now tokens.now)) }
    ensures refused { IfErr result (λ fault. IfAt fault (FailsAt (grammar.Written kind) (length text.now) (lexemes_of text.now tokens.now))) }
{
    let mut lexemes = Lexemes::of(text, tokens);
    match whole_file(alloc, kind, &mut lexemes) {
        Ok(file) => Ok(file),
        Err(ReadFault::Left(left)) => Err(SyntaxFault::At {
            at: Lexemes::of(text, tokens).place_with_left(left, text.len() as u64),
        }),
        Err(ReadFault::Memory) => Err(SyntaxFault::Memory),
    }
}

/// The values of a query that the tokens of the text write.
pub fn parse_values(
    alloc: Global,
    text: &[u8],
    tokens: &List<Token>,
) -> Result<List<ValueTree>, SyntaxFault>
    requires { AreTokens text.now tokens.now }
    ensures written { IfOk result (grammar.Query (lexemes_of text.now tokens.now)) }
    ensures refused { IfErr result (λ fault. IfAt fault (FailsAt grammar.Query (length text.now) (lexemes_of text.now tokens.now))) }
{
    let mut lexemes = Lexemes::of(text, tokens);
    match whole_query(alloc, &mut lexemes) {
        Ok(values) => Ok(values),
        Err(ReadFault::Left(left)) => Err(SyntaxFault::At {
            at: Lexemes::of(text, tokens).place_with_left(left, text.len() as u64),
        }),
        Err(ReadFault::Memory) => Err(SyntaxFault::Memory),
    }
}

/// The value, where no token is left.
fn done<T: Drop>(value: T, lexemes: &Lexemes<'_>) -> Result<T, ReadFault>
    ensures { Gives (λ value. value) result (whole (Ok (value, lexemes.now))) }
{
    let left = lexemes.left();
    if left > 0 {
        return Err(ReadFault::Left(left));
    }
    Ok(value)
}

/// A file of the kind, with no token after it.
fn whole_file(alloc: Global, kind: FileKind, lexemes: &mut Lexemes<'_>) -> Result<File, ReadFault>
    ensures { Gives (λ file. file) result (whole (reader.file_at kind lexemes.old)) }
{
    let file = file(alloc, kind, lexemes)?;
    done(file, lexemes)
}

/// The values of a query, with no token after them.
fn whole_query(alloc: Global, lexemes: &mut Lexemes<'_>) -> Result<List<ValueTree>, ReadFault>
    ensures { Gives (λ values. values) result (whole (reader.maybe_cells_at lexemes.old)) }
{
    let values = maybe_cells(alloc, lexemes)?;
    done(values, lexemes)
}
