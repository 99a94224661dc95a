ghost use Rattle.std.specs.Prelude.{◌≡◌};
ghost use Rattle.design_lexer.specs.Syntax.Gives.{Gives};
ghost use Rattle.design_parser.specs.Readers as reader;

use crate::exprs::{expr, place};
use design_lexer::{Class, Lexemes, ReadFault, RuleTree};
use std::alloc::Global;

/// The most signs `+` and `*` of a rule.
const MAX_SIGNS: usize = 1000;

/// A rule that a port carries at least a value.
fn above(alloc: Global, lexemes: &mut Lexemes<'_>) -> Result<RuleTree, ReadFault>
    ensures { Gives (λ rule. (rule, lexemes.new)) result (reader.above_at lexemes.old) }
{
    let place = place(alloc, lexemes)?;
    lexemes.expect(Class::AtLeast)?;
    let lower = expr(alloc, 64, lexemes)?;
    lexemes.expect(Class::Semicolon)?;
    Ok(RuleTree::Above { place, lower })
}

/// A rule that a port may stay unconnected.
fn ignore(alloc: Global, lexemes: &mut Lexemes<'_>) -> Result<RuleTree, ReadFault>
    ensures { Gives (λ rule. (rule, lexemes.new)) result (reader.ignore_at lexemes.old) }
{
    lexemes.expect(Class::Ignore)?;
    let place = place(alloc, lexemes)?;
    lexemes.expect(Class::Semicolon)?;
    Ok(RuleTree::Ignore(place))
}

/// A rule, whatever the number of its signs.
fn whole_rule(alloc: Global, lexemes: &mut Lexemes<'_>) -> Result<RuleTree, ReadFault>
    ensures { Gives (λ rule. (rule, lexemes.new)) result (reader.whole_rule_at lexemes.old) }
{
    if lexemes.starts(Class::Name) {
        above(alloc, lexemes)
    } else {
        ignore(alloc, lexemes)
    }
}

/// A rule. A sign past the limit is not read, so that no tree is made with more.
pub fn rule(alloc: Global, lexemes: &mut Lexemes<'_>) -> Result<RuleTree, ReadFault>
    ensures { Gives (λ rule. (rule, lexemes.new)) result (reader.rule_at lexemes.old) }
{
    let beyond = lexemes.over(MAX_SIGNS);
    if beyond == 0 {
        return whole_rule(alloc, lexemes);
    }
    let mut front = lexemes.without_last(beyond);
    match whole_rule(alloc, &mut front).err() {
        None => Err(ReadFault::Left(beyond)),
        Some(ReadFault::Left(left)) => Err(ReadFault::Left(left + beyond)),
        Some(ReadFault::Memory) => Err(ReadFault::Memory),
    }
}
