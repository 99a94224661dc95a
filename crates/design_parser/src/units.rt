ghost use Rattle.std.specs.Prelude.{◌≡◌};
ghost use Rattle.design_lexer.specs.Syntax.Gives.{Gives};
ghost use Rattle.design_parser.specs.Readers as reader;

use crate::parts::Power;
use design_lexer::{Class, ConstantTree, FactorTree, Lexemes, Number, ReadFault};
use order_core::{List, Text};
use std::alloc::Global;

/// Whether a `-` stands before the power.
fn negative(lexemes: &mut Lexemes<'_>) -> Result<bool, ReadFault>
    ensures { Gives (λ negative. (negative, lexemes.new)) result (reader.negative_at lexemes.old) }
{
    if !lexemes.starts(Class::Minus) {
        return Ok(false);
    }
    lexemes.expect(Class::Minus)?;
    Ok(true)
}

/// The power after a `^`.
fn written_power(alloc: Global, lexemes: &mut Lexemes<'_>) -> Result<Power, ReadFault>
    ensures { Gives (λ power. (power, lexemes.new)) result (reader.written_power_at lexemes.old) }
{
    lexemes.expect(Class::Caret)?;
    let negative = negative(lexemes)?;
    let (power, written) = lexemes.whole(alloc)?;
    Ok(Power {
        negative,
        power: Some(power),
        written,
    })
}

/// The power of a factor, if it has one.
fn power(alloc: Global, lexemes: &mut Lexemes<'_>) -> Result<Power, ReadFault>
    ensures { Gives (λ power. (power, lexemes.new)) result (reader.power_at lexemes.old) }
{
    if lexemes.starts(Class::Caret) {
        return written_power(alloc, lexemes);
    }
    Ok(Power {
        negative: false,
        power: None,
        written: Text::of(String::new(alloc)),
    })
}

/// A factor of a unit, without the sign before it.
fn factor(alloc: Global, divided: bool, lexemes: &mut Lexemes<'_>) -> Result<FactorTree, ReadFault>
    ensures { Gives (λ factor. (factor, lexemes.new)) result (reader.factor_at divided lexemes.old) }
{
    let name = lexemes.unit_name(alloc)?;
    let power = power(alloc, lexemes)?;
    Ok(FactorTree {
        divided,
        name,
        negative: power.negative,
        power: power.power,
        written: power.written,
    })
}

/// A factor after a `.` or a `/`.
fn further_factor(alloc: Global, lexemes: &mut Lexemes<'_>) -> Result<FactorTree, ReadFault>
    ensures { Gives (λ factor. (factor, lexemes.new)) result (reader.further_factor_at lexemes.old) }
{
    if lexemes.starts(Class::Dot) {
        lexemes.expect(Class::Dot)?;
        factor(alloc, false, lexemes)
    } else {
        lexemes.expect(Class::Slash)?;
        factor(alloc, true, lexemes)
    }
}

/// A unit.
pub fn unit(alloc: Global, lexemes: &mut Lexemes<'_>) -> Result<List<FactorTree>, ReadFault>
    ensures { Gives (λ unit. (unit, lexemes.new)) result (reader.unit_at lexemes.old) }
{
    let mut factors = Vec::new(alloc);
    factors.push(factor(alloc, false, lexemes)?)?;
    while lexemes.starts_any(&[Class::Dot, Class::Slash]) {
        factors.push(further_factor(alloc, lexemes)?)?;
    }
    factors.shrink_to_fit();
    Ok(List::of(factors))
}

/// The number under a `/`, if there is one.
fn under(lexemes: &mut Lexemes<'_>) -> Result<Option<Number>, ReadFault>
    ensures { Gives (λ under. (under, lexemes.new)) result (reader.under_at lexemes.old) }
{
    if !lexemes.starts(Class::Slash) {
        return Ok(None);
    }
    lexemes.expect(Class::Slash)?;
    let (number, _) = lexemes.number()?;
    Ok(Some(number))
}

/// The unit of a constant. Where it has none there are no factors.
fn maybe_unit(alloc: Global, lexemes: &mut Lexemes<'_>) -> Result<List<FactorTree>, ReadFault>
    ensures { Gives (λ unit. (unit, lexemes.new)) result (reader.maybe_unit_at lexemes.old) }
{
    if lexemes.starts_any(&[Class::Name, Class::Min]) {
        return unit(alloc, lexemes);
    }
    Ok(List::of(Vec::new(alloc)))
}

/// A constant.
pub fn constant(alloc: Global, lexemes: &mut Lexemes<'_>) -> Result<ConstantTree, ReadFault>
    ensures { Gives (λ constant. (constant, lexemes.new)) result (reader.constant_at lexemes.old) }
{
    let (over, at) = lexemes.number()?;
    let under = under(lexemes)?;
    let unit = maybe_unit(alloc, lexemes)?;
    Ok(ConstantTree {
        over,
        under,
        unit,
        at,
    })
}
