ghost use Rattle.std.specs.Prelude.{◌≡◌, Ok};
ghost use Rattle.design_lexer.specs.Syntax.Gives.{Gives};
ghost use Rattle.design_lexer.specs.Syntax.Reading.{listed_at};
ghost use Rattle.design_parser.specs.Readers as reader;
ghost use Rattle.design_parser.specs.Trees as trees;
ghost use Rattle.design_lexer.specs.declared.syntax.class.Class.TheVariants as class;

use crate::names::literal_after;
use crate::parts::Literal;
use crate::units::constant;
use design_lexer::{Class, ExprTree, Lexemes, NameAt, PlaceTree, ReadFault};
use order_core::{Boxed, List};
use std::alloc::Global;

/// The place that begins with the name.
fn place_after(
    alloc: Global,
    first: NameAt,
    lexemes: &mut Lexemes<'_>,
) -> Result<PlaceTree, ReadFault>
    ensures { Gives (λ place. (place, lexemes.new)) result (reader.place_after first lexemes.old) }
{
    if !lexemes.starts(Class::Dot) {
        return Ok(PlaceTree {
            first,
            second: None,
        });
    }
    lexemes.expect(Class::Dot)?;
    let second = lexemes.name(alloc)?;
    Ok(PlaceTree {
        first,
        second: Some(second),
    })
}

/// A place.
pub fn place(alloc: Global, lexemes: &mut Lexemes<'_>) -> Result<PlaceTree, ReadFault>
    ensures { Gives (λ place. (place, lexemes.new)) result (reader.place_at lexemes.old) }
{
    let first = lexemes.name(alloc)?;
    place_after(alloc, first, lexemes)
}

/// The expression that the literal is.
fn literal_expr(literal: Literal) -> ExprTree
    ensures { result ≡ trees.literal_expr literal }
{
    match literal {
        Literal::Element { poset, element } => ExprTree::Element { poset, element },
        Literal::Upper { poset, elements } => ExprTree::Upper { poset, elements },
    }
}

/// The literal or the place that begins with a name.
fn named(alloc: Global, lexemes: &mut Lexemes<'_>) -> Result<ExprTree, ReadFault>
    ensures { Gives (λ expr. (expr, lexemes.new)) result (reader.named_at lexemes.old) }
{
    let name = lexemes.name(alloc)?;
    if lexemes.starts(Class::Colon) {
        return Ok(literal_expr(literal_after(alloc, name, lexemes)?));
    }
    Ok(ExprTree::Place(place_after(alloc, name, lexemes)?))
}

/// An item without brackets.
fn plain_item(alloc: Global, lexemes: &mut Lexemes<'_>) -> Result<ExprTree, ReadFault>
    ensures { Gives (λ expr. (expr, lexemes.new)) result (reader.plain_item_at lexemes.old) }
{
    if lexemes.starts_any(&[Class::Whole, Class::Decimal]) {
        return Ok(ExprTree::Constant(constant(alloc, lexemes)?));
    }
    named(alloc, lexemes)
}

/// The place of the expression's first token. Round brackets leave it as it is.
fn place_of(expr: &ExprTree) -> u64
    ensures { result ≡ trees.place_of expr.now }
{
    match expr {
        ExprTree::Constant(constant) => constant.at,
        ExprTree::Place(place) => place.first.at,
        ExprTree::Element { poset, .. } => poset.at,
        ExprTree::Upper { poset, .. } => poset.at,
        ExprTree::Sum { at, .. } => *at,
        ExprTree::Product { at, .. } => *at,
        ExprTree::Greatest { at, .. } => *at,
        ExprTree::Lesser { at, .. } => *at,
        ExprTree::Tuple { at, .. } => *at,
    }
}

/// The sum of both.
fn sum(alloc: Global, left: ExprTree, right: ExprTree) -> Result<ExprTree, ReadFault>
    ensures { Gives (λ expr. expr) result (Ok (trees.sum left right)) }
{
    let at = place_of(&left);
    Ok(ExprTree::Sum {
        left: Boxed::of(alloc, left)?,
        right: Boxed::of(alloc, right)?,
        at,
    })
}

/// The product of both.
fn product(alloc: Global, left: ExprTree, right: ExprTree) -> Result<ExprTree, ReadFault>
    ensures { Gives (λ expr. expr) result (Ok (trees.product left right)) }
{
    let at = place_of(&left);
    Ok(ExprTree::Product {
        left: Boxed::of(alloc, left)?,
        right: Boxed::of(alloc, right)?,
        at,
    })
}

/// An expression in round brackets.
#[cycle(expr)]
fn round(alloc: Global, room: u8, lexemes: &mut Lexemes<'_>) -> Result<ExprTree, ReadFault>
    ensures { Gives (λ expr. (expr, lexemes.new)) result (reader.round_at (reader.expr_at room) lexemes.old) }
{
    lexemes.expect(Class::LeftRound)?;
    let inner = expr(alloc, room, lexemes)?;
    lexemes.expect(Class::RightRound)?;
    Ok(inner)
}

/// Two expressions in round brackets.
#[cycle(expr)]
fn operands(
    alloc: Global,
    room: u8,
    lexemes: &mut Lexemes<'_>,
) -> Result<(ExprTree, ExprTree), ReadFault>
    ensures { Gives (λ operands. (operands, lexemes.new)) result (reader.operands_at (reader.expr_at room) lexemes.old) }
{
    lexemes.expect(Class::LeftRound)?;
    let left = expr(alloc, room, lexemes)?;
    lexemes.expect(Class::Comma)?;
    let right = expr(alloc, room, lexemes)?;
    lexemes.expect(Class::RightRound)?;
    Ok((left, right))
}

/// The greater or the lesser of two expressions.
#[cycle(expr)]
fn call(alloc: Global, room: u8, lexemes: &mut Lexemes<'_>) -> Result<ExprTree, ReadFault>
    ensures { Gives (λ expr. (expr, lexemes.new)) result (reader.call_at (reader.expr_at room) lexemes.old) }
{
    if lexemes.starts(Class::Max) {
        let at = lexemes.mark(Class::Max)?;
        let (left, right) = operands(alloc, room, lexemes)?;
        return Ok(ExprTree::Greatest {
            left: Boxed::of(alloc, left)?,
            right: Boxed::of(alloc, right)?,
            at,
        });
    }
    let at = lexemes.mark(Class::Min)?;
    let (left, right) = operands(alloc, room, lexemes)?;
    Ok(ExprTree::Lesser {
        left: Boxed::of(alloc, left)?,
        right: Boxed::of(alloc, right)?,
        at,
    })
}

/// An expression, and more after commas.
#[cycle(expr)]
fn exprs(alloc: Global, room: u8, lexemes: &mut Lexemes<'_>) -> Result<Vec<ExprTree>, ReadFault>
    ensures { Gives (λ exprs. (exprs.items, lexemes.new)) result (listed_at class.Comma (reader.expr_at room) lexemes.old) }
{
    let mut exprs = Vec::new(alloc);
    exprs.push(expr(alloc, room, lexemes)?)?;
    while lexemes.starts(Class::Comma) {
        lexemes.skip();
        exprs.push(expr(alloc, room, lexemes)?)?;
    }
    Ok(exprs)
}

/// Expressions in angle brackets.
#[cycle(expr)]
fn tuple(alloc: Global, room: u8, lexemes: &mut Lexemes<'_>) -> Result<ExprTree, ReadFault>
    ensures { Gives (λ expr. (expr, lexemes.new)) result (reader.tuple_at (reader.expr_at room) lexemes.old) }
{
    let at = lexemes.mark(Class::Less)?;
    let parts = exprs(alloc, room, lexemes)?;
    lexemes.expect(Class::Greater)?;
    Ok(ExprTree::Tuple {
        parts: List::of(parts),
        at,
    })
}

/// An item with brackets.
#[cycle(expr)]
fn opened(alloc: Global, room: u8, lexemes: &mut Lexemes<'_>) -> Result<ExprTree, ReadFault>
    ensures { Gives (λ expr. (expr, lexemes.new)) result (reader.opened_at (reader.expr_at room) lexemes.old) }
{
    if lexemes.starts(Class::LeftRound) {
        return round(alloc, room, lexemes);
    }
    if lexemes.starts(Class::Less) {
        return tuple(alloc, room, lexemes);
    }
    call(alloc, room, lexemes)
}

/// An item, where so many brackets may still be opened.
#[cycle(expr)]
fn item(alloc: Global, room: u8, lexemes: &mut Lexemes<'_>) -> Result<ExprTree, ReadFault>
    ensures { Gives (λ expr. (expr, lexemes.new)) result (reader.item_at room lexemes.old) }
{
    if room == 0 {
        return plain_item(alloc, lexemes);
    }
    if lexemes.starts_any(&[Class::Name, Class::Whole, Class::Decimal]) {
        return plain_item(alloc, lexemes);
    }
    opened(alloc, room - 1, lexemes)
}

/// Items that are multiplied, where so many brackets may still be opened.
#[cycle(expr)]
fn term(alloc: Global, room: u8, lexemes: &mut Lexemes<'_>) -> Result<ExprTree, ReadFault>
    ensures { Gives (λ expr. (expr, lexemes.new)) result (reader.term_at room lexemes.old) }
{
    let mut left = item(alloc, room, lexemes)?;
    while lexemes.starts(Class::Star) {
        lexemes.skip();
        let right = item(alloc, room, lexemes)?;
        left = product(alloc, left, right)?;
    }
    Ok(left)
}

/// An expression, where so many brackets may still be opened.
#[cycle(expr)]
pub fn expr(alloc: Global, room: u8, lexemes: &mut Lexemes<'_>) -> Result<ExprTree, ReadFault>
    ensures { Gives (λ expr. (expr, lexemes.new)) result (reader.expr_at room lexemes.old) }
{
    let mut left = term(alloc, room, lexemes)?;
    while lexemes.starts(Class::Plus) {
        lexemes.skip();
        let right = term(alloc, room, lexemes)?;
        left = sum(alloc, left, right)?;
    }
    Ok(left)
}
