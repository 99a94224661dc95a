ghost use Rattle.std.specs.Prelude.{◌≡◌};
ghost use Rattle.design_lexer.specs.Syntax.Gives.{Gives};
ghost use Rattle.design_parser.specs.Readers as reader;
ghost use Rattle.design_parser.specs.Trees as trees;

use crate::names::literal;
use crate::parts::Literal;
use crate::units::constant;
use design_lexer::{Class, Lexemes, ReadFault, ValueTree};
use order_core::List;
use std::alloc::Global;

/// The value that the literal is.
fn literal_value(literal: Literal) -> ValueTree
    ensures { result ≡ trees.literal_value literal }
{
    match literal {
        Literal::Element { poset, element } => ValueTree::Element { poset, element },
        Literal::Upper { poset, elements } => ValueTree::Upper { poset, elements },
    }
}

/// A value without brackets.
fn plain_value(alloc: Global, lexemes: &mut Lexemes<'_>) -> Result<ValueTree, ReadFault>
    ensures { Gives (λ value. (value, lexemes.new)) result (reader.plain_value_at lexemes.old) }
{
    if lexemes.starts(Class::Top) {
        let at = lexemes.mark(Class::Top)?;
        return Ok(ValueTree::Top { at });
    }
    if lexemes.starts_any(&[Class::Whole, Class::Decimal]) {
        return Ok(ValueTree::Constant(constant(alloc, lexemes)?));
    }
    Ok(literal_value(literal(alloc, lexemes)?))
}

/// Values in angle brackets.
#[cycle(value)]
fn tuple(alloc: Global, room: u8, lexemes: &mut Lexemes<'_>) -> Result<ValueTree, ReadFault>
    ensures { Gives (λ value. (value, lexemes.new)) result (reader.tuple_value_at (reader.value_at room) lexemes.old) }
{
    let at = lexemes.mark(Class::Less)?;
    let parts = cells(alloc, room, lexemes)?;
    lexemes.expect(Class::Greater)?;
    Ok(ValueTree::Tuple {
        at,
        parts: List::of(parts),
    })
}

/// A value, where so many brackets may still be opened.
#[cycle(value)]
fn value(alloc: Global, room: u8, lexemes: &mut Lexemes<'_>) -> Result<ValueTree, ReadFault>
    ensures { Gives (λ value. (value, lexemes.new)) result (reader.value_at room lexemes.old) }
{
    if room == 0 {
        return plain_value(alloc, lexemes);
    }
    if lexemes.starts(Class::Less) {
        return tuple(alloc, room - 1, lexemes);
    }
    plain_value(alloc, lexemes)
}

/// A value, and more after commas, where so many brackets may still be opened.
#[cycle(value)]
pub fn cells(
    alloc: Global,
    room: u8,
    lexemes: &mut Lexemes<'_>,
) -> Result<Vec<ValueTree>, ReadFault>
    ensures { Gives (λ cells. (cells.items, lexemes.new)) result (reader.cells_at room lexemes.old) }
{
    let mut cells = Vec::new(alloc);
    cells.push(value(alloc, room, lexemes)?)?;
    while lexemes.starts(Class::Comma) {
        lexemes.skip();
        cells.push(value(alloc, room, lexemes)?)?;
    }
    cells.shrink_to_fit();
    Ok(cells)
}

/// Values after commas, or none.
pub fn maybe_cells(alloc: Global, lexemes: &mut Lexemes<'_>) -> Result<List<ValueTree>, ReadFault>
    ensures { Gives (λ cells. (cells, lexemes.new)) result (reader.maybe_cells_at lexemes.old) }
{
    if lexemes.starts_any(&[
        Class::Name,
        Class::Whole,
        Class::Decimal,
        Class::Top,
        Class::Less,
    ]) {
        return Ok(List::of(cells(alloc, 64, lexemes)?));
    }
    Ok(List::of(Vec::new(alloc)))
}
