ghost use Rattle.std.specs.Prelude.{◌≡◌, ◌∷◌, []};
ghost use Rattle.std.specs.Str.{IsUtf8};
ghost use Rattle.design_lexer.specs.Cut.{AreTokens};
ghost use Rattle.design_lexer.specs.Syntax.Classes.{lexemes_of};
ghost use Rattle.design_parser.specs.Grammar.{Query};
ghost use Rattle.value_type.specs.Types.{AreNamed};
ghost use Rattle.row_values.specs.Cells as spec;

use crate::value::{CellFault, Rounding, value_of_tree};
use design_lexer::{LexFault, Lexemes, ReadFault, Token, ValueTree, lex};
use design_parser::{SyntaxFault, parse_values};
use order_core::{List, Text};
use std::alloc::Global;
use value_type::{Kind, Types, Value};

/// The value of the type that the cell's text means.
pub fn value_of_cell(
    alloc: Global,
    cell: &[u8],
    types: &Types,
    kind: &Kind,
    rounding: Rounding,
) -> Result<Value, CellFault>
    requires types { AreNamed types.now }
    ensures { spec.Finds (spec.CellIs types.now rounding kind.now cell.now) result }
{
    let tree = match tree_of(alloc, cell) {
        Ok(tree) => tree,
        Err(fault) => return Err(fault),
    };
    value_of_tree(alloc, &tree, types, kind, rounding)
}

/// The value tree that the cell's text writes.
fn tree_of(alloc: Global, cell: &[u8]) -> Result<ValueTree, CellFault>
    ensures { spec.Finds (spec.Writes cell.now) result }
{
    let tokens = match tokens_of(alloc, cell) {
        Ok(tokens) => tokens,
        Err(fault) => return Err(fault),
    };
    let values = match values_of(alloc, cell, &tokens) {
        Ok(values) => values,
        Err(fault) => return Err(fault),
    };
    only_one(values)
}

/// The value trees that the tokens of the cell write.
fn values_of(alloc: Global, cell: &[u8], tokens: &List<Token>) -> Result<List<ValueTree>, CellFault>
    requires { AreTokens cell.now tokens.now }
    ensures { spec.Finds (Query (lexemes_of cell.now tokens.now)) result }
{
    match parse_values(alloc, cell, tokens) {
        Ok(values) => Ok(values),
        Err(SyntaxFault::At { at: _ }) => Err(CellFault::Bad),
        Err(SyntaxFault::Memory) => Err(CellFault::Memory),
    }
}

/// The value of the list, if it is its only one.
fn only_one(values: List<ValueTree>) -> Result<ValueTree, CellFault>
    ensures { spec.Finds (λ tree. values ≡ tree ∷ []) result }
{
    let mut values = values.into_vec();
    match values.pop() {
        Some(tree) => {
            if values.is_empty() {
                Ok(tree)
            } else {
                Err(CellFault::Bad)
            }
        }
        None => Err(CellFault::Bad),
    }
}

/// The tokens of the cell's text.
fn tokens_of(alloc: Global, cell: &[u8]) -> Result<List<Token>, CellFault>
    ensures { spec.Finds (spec.IsCut cell.now) result }
{
    match lex(alloc, cell) {
        Ok(tokens) => Ok(tokens),
        Err(LexFault::NotText) => Err(CellFault::Bad),
        Err(LexFault::BadToken { at: _ }) => Err(CellFault::Bad),
        Err(LexFault::Memory) => Err(CellFault::Memory),
    }
}

/// The name that the cell's text is.
pub fn name_of_cell(alloc: Global, cell: &[u8]) -> Result<Text, CellFault>
    ensures { spec.Finds (spec.IsName cell.now) result }
{
    let tokens = match tokens_of(alloc, cell) {
        Ok(tokens) => tokens,
        Err(fault) => return Err(fault),
    };
    let mut lexemes = Lexemes::of(cell, &tokens);
    match lexemes.name(alloc) {
        Ok(name) => {
            if lexemes.left() > 0 {
                return Err(CellFault::Bad);
            }
            Ok(name.name)
        }
        Err(ReadFault::Left(_)) => Err(CellFault::Bad),
        Err(ReadFault::Memory) => Err(CellFault::Memory),
    }
}
