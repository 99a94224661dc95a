ghost use Rattle.std.specs.Prelude.{◌≡◌};
ghost use Rattle.design_lexer.specs.Syntax.Gives.{Gives};
ghost use Rattle.design_lexer.specs.Syntax.Reading.{listed_at};
ghost use Rattle.design_parser.specs.Readers as reader;
ghost use Rattle.design_lexer.specs.declared.syntax.class.Class.TheVariants as class;

use crate::units::unit;
use design_lexer::{Class, Lexemes, PortTree, ReadFault, Side, TypeTree};
use order_core::List;
use std::alloc::Global;

/// A type without brackets.
fn plain_type(alloc: Global, lexemes: &mut Lexemes<'_>) -> Result<TypeTree, ReadFault>
    ensures { Gives (λ kind. (kind, lexemes.new)) result (reader.plain_type_at lexemes.old) }
{
    if lexemes.starts(Class::Nat) {
        lexemes.expect(Class::Nat)?;
        return Ok(TypeTree::Nat);
    }
    if lexemes.starts_any(&[Class::Name, Class::Min]) {
        return Ok(TypeTree::Unit(unit(alloc, lexemes)?));
    }
    if lexemes.starts(Class::Poset) {
        lexemes.expect(Class::Poset)?;
        return Ok(TypeTree::Poset(lexemes.name(alloc)?));
    }
    lexemes.expect(Class::Up)?;
    Ok(TypeTree::Up(lexemes.name(alloc)?))
}

/// A product of types.
#[cycle(kind)]
fn product(alloc: Global, room: u8, lexemes: &mut Lexemes<'_>) -> Result<TypeTree, ReadFault>
    ensures { Gives (λ kind. (kind, lexemes.new)) result (reader.product_at (reader.type_at room) lexemes.old) }
{
    lexemes.expect(Class::Product)?;
    lexemes.expect(Class::LeftRound)?;
    let parts = kinds(alloc, room, lexemes)?;
    lexemes.expect(Class::RightRound)?;
    Ok(TypeTree::Product(List::of(parts)))
}

/// A type, where so many brackets may still be opened.
#[cycle(kind)]
fn kind(alloc: Global, room: u8, lexemes: &mut Lexemes<'_>) -> Result<TypeTree, ReadFault>
    ensures { Gives (λ kind. (kind, lexemes.new)) result (reader.type_at room lexemes.old) }
{
    if room == 0 {
        return plain_type(alloc, lexemes);
    }
    if lexemes.starts(Class::Product) {
        return product(alloc, room - 1, lexemes);
    }
    plain_type(alloc, lexemes)
}

/// A type, and more after commas, where so many brackets may still be opened.
#[cycle(kind)]
fn kinds(alloc: Global, room: u8, lexemes: &mut Lexemes<'_>) -> Result<Vec<TypeTree>, ReadFault>
    ensures { Gives (λ kinds. (kinds.items, lexemes.new)) result (listed_at class.Comma (reader.type_at room) lexemes.old) }
{
    let mut kinds = Vec::new(alloc);
    kinds.push(kind(alloc, room, lexemes)?)?;
    while lexemes.starts(Class::Comma) {
        lexemes.skip();
        kinds.push(kind(alloc, room, lexemes)?)?;
    }
    Ok(kinds)
}

/// The side that a port stands on.
fn side(lexemes: &mut Lexemes<'_>) -> Result<Side, ReadFault>
    ensures { Gives (λ side. (side, lexemes.new)) result (reader.side_at lexemes.old) }
{
    if lexemes.starts(Class::Provides) {
        lexemes.expect(Class::Provides)?;
        Ok(Side::Provides)
    } else {
        lexemes.expect(Class::Requires)?;
        Ok(Side::Requires)
    }
}

/// A port.
pub fn port(alloc: Global, lexemes: &mut Lexemes<'_>) -> Result<PortTree, ReadFault>
    ensures { Gives (λ port. (port, lexemes.new)) result (reader.port_at lexemes.old) }
{
    let side = side(lexemes)?;
    let name = lexemes.name(alloc)?;
    lexemes.expect(Class::LeftSquare)?;
    let at = lexemes.place_or(0);
    let kind = kind(alloc, 64, lexemes)?;
    lexemes.expect(Class::RightSquare)?;
    lexemes.expect(Class::Semicolon)?;
    Ok(PortTree {
        side,
        name,
        kind,
        at,
    })
}

/// Ports, one after the other.
pub fn ports(alloc: Global, lexemes: &mut Lexemes<'_>) -> Result<List<PortTree>, ReadFault>
    ensures { Gives (λ ports. (ports, lexemes.new)) result (reader.ports_at lexemes.old) }
{
    let mut ports = Vec::new(alloc);
    while lexemes.starts_any(&[Class::Provides, Class::Requires]) {
        ports.push(port(alloc, lexemes)?)?;
    }
    Ok(List::of(ports))
}
