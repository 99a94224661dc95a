ghost use Rattle.std.specs.Prelude.{◌≡◌};
ghost use Rattle.design_lexer.specs.Syntax.Gives.{Gives};
ghost use Rattle.design_lexer.specs.Syntax.Reading.{listed_at};
ghost use Rattle.design_lexer.specs.Syntax.Spelled.{name_at};
ghost use Rattle.design_parser.specs.Readers as reader;

use crate::parts::Literal;
use design_lexer::{Class, Lexemes, NameAt, ReadFault};
use order_core::List;
use std::alloc::Global;

/// A name, and more after separators.
pub fn listed(
    alloc: Global,
    separator: Class,
    lexemes: &mut Lexemes<'_>,
) -> Result<Vec<NameAt>, ReadFault>
    ensures { Gives (λ names. (names.items, lexemes.new)) result (listed_at separator name_at lexemes.old) }
{
    let mut names = Vec::new(alloc);
    names.push(lexemes.name(alloc)?)?;
    while lexemes.starts(separator) {
        lexemes.skip();
        names.push(lexemes.name(alloc)?)?;
    }
    Ok(names)
}

/// Names after commas, or none.
pub fn names(alloc: Global, lexemes: &mut Lexemes<'_>) -> Result<List<NameAt>, ReadFault>
    ensures { Gives (λ names. (names, lexemes.new)) result (reader.names_at lexemes.old) }
{
    if lexemes.starts(Class::Name) {
        Ok(List::of(listed(alloc, Class::Comma, lexemes)?))
    } else {
        Ok(List::of(Vec::new(alloc)))
    }
}

/// What follows the name of a poset in a literal: an element, or the elements of an upper set.
pub fn literal_after(
    alloc: Global,
    poset: NameAt,
    lexemes: &mut Lexemes<'_>,
) -> Result<Literal, ReadFault>
    ensures { Gives (λ literal. (literal, lexemes.new)) result (reader.literal_after poset lexemes.old) }
{
    lexemes.expect(Class::Colon)?;
    if lexemes.starts(Class::Name) {
        let element = lexemes.name(alloc)?;
        return Ok(Literal::Element { poset, element });
    }
    lexemes.expect(Class::LeftBrace)?;
    let elements = names(alloc, lexemes)?;
    lexemes.expect(Class::RightBrace)?;
    Ok(Literal::Upper { poset, elements })
}

/// A literal.
pub fn literal(alloc: Global, lexemes: &mut Lexemes<'_>) -> Result<Literal, ReadFault>
    ensures { Gives (λ literal. (literal, lexemes.new)) result (reader.literal_at lexemes.old) }
{
    let poset = lexemes.name(alloc)?;
    literal_after(alloc, poset, lexemes)
}
