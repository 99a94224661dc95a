ghost use Rattle.std.specs.Prelude.{◌≡◌};
ghost use Rattle.design_lexer.specs.Syntax.Gives.{Gives};
ghost use Rattle.design_lexer.specs.Syntax.Reading.{listed_at};
ghost use Rattle.design_parser.specs.Readers as reader;
ghost use Rattle.design_lexer.specs.declared.syntax.class.Class.TheVariants as class;

use design_lexer::{ArgTree, BranchTree, Class, Lexemes, ParamTree, ReadFault, RefTree};
use order_core::List;
use std::alloc::Global;

/// An argument, where so many brackets may still be opened.
#[cycle(reference)]
fn argument(alloc: Global, room: u8, lexemes: &mut Lexemes<'_>) -> Result<ArgTree, ReadFault>
    ensures { Gives (λ argument. (argument, lexemes.new)) result (reader.arg_at (reader.ref_at room) lexemes.old) }
{
    let name = lexemes.name(alloc)?;
    lexemes.expect(Class::Colon)?;
    let reference = reference(alloc, room, lexemes)?;
    Ok(ArgTree { name, reference })
}

/// An argument, and more after commas.
#[cycle(reference)]
fn listed_arguments(
    alloc: Global,
    room: u8,
    lexemes: &mut Lexemes<'_>,
) -> Result<Vec<ArgTree>, ReadFault>
    ensures { Gives (λ arguments. (arguments.items, lexemes.new)) result (listed_at class.Comma (reader.arg_at (reader.ref_at room)) lexemes.old) }
{
    let mut arguments = Vec::new(alloc);
    arguments.push(argument(alloc, room, lexemes)?)?;
    while lexemes.starts(Class::Comma) {
        lexemes.skip();
        arguments.push(argument(alloc, room, lexemes)?)?;
    }
    Ok(arguments)
}

/// Arguments in angle brackets, or none.
#[cycle(reference)]
fn arguments(alloc: Global, room: u8, lexemes: &mut Lexemes<'_>) -> Result<List<ArgTree>, ReadFault>
    ensures { Gives (λ arguments. (arguments, lexemes.new)) result (reader.arguments_at (reader.ref_at room) lexemes.old) }
{
    if !lexemes.starts(Class::Less) {
        return Ok(List::of(Vec::new(alloc)));
    }
    lexemes.expect(Class::Less)?;
    let arguments = listed_arguments(alloc, room, lexemes)?;
    lexemes.expect(Class::Greater)?;
    Ok(List::of(arguments))
}

/// A reference without arguments.
fn plain_reference(alloc: Global, lexemes: &mut Lexemes<'_>) -> Result<RefTree, ReadFault>
    ensures { Gives (λ reference. (reference, lexemes.new)) result (reader.plain_ref_at lexemes.old) }
{
    let name = lexemes.name(alloc)?;
    Ok(RefTree {
        name,
        arguments: List::of(Vec::new(alloc)),
    })
}

/// A reference with its arguments.
#[cycle(reference)]
fn full_reference(alloc: Global, room: u8, lexemes: &mut Lexemes<'_>) -> Result<RefTree, ReadFault>
    ensures { Gives (λ reference. (reference, lexemes.new)) result (reader.full_ref_at (reader.ref_at room) lexemes.old) }
{
    let name = lexemes.name(alloc)?;
    let arguments = arguments(alloc, room, lexemes)?;
    Ok(RefTree { name, arguments })
}

/// A reference, where so many brackets may still be opened.
#[cycle(reference)]
pub fn reference(alloc: Global, room: u8, lexemes: &mut Lexemes<'_>) -> Result<RefTree, ReadFault>
    ensures { Gives (λ reference. (reference, lexemes.new)) result (reader.ref_at room lexemes.old) }
{
    if room == 0 {
        return plain_reference(alloc, lexemes);
    }
    full_reference(alloc, room - 1, lexemes)
}

/// A branch of a choice.
fn branch(alloc: Global, lexemes: &mut Lexemes<'_>) -> Result<BranchTree, ReadFault>
    ensures { Gives (λ branch. (branch, lexemes.new)) result (reader.branch_at lexemes.old) }
{
    let name = lexemes.name(alloc)?;
    lexemes.expect(Class::Colon)?;
    let reference = reference(alloc, 64, lexemes)?;
    lexemes.expect(Class::Semicolon)?;
    Ok(BranchTree { name, reference })
}

/// One or more branches.
pub fn branches(alloc: Global, lexemes: &mut Lexemes<'_>) -> Result<List<BranchTree>, ReadFault>
    ensures { Gives (λ branches. (branches, lexemes.new)) result (reader.branches_at lexemes.old) }
{
    let mut branches = Vec::new(alloc);
    branches.push(branch(alloc, lexemes)?)?;
    while lexemes.starts(Class::Name) {
        branches.push(branch(alloc, lexemes)?)?;
    }
    Ok(List::of(branches))
}

/// An instance of a net.
pub fn instance(alloc: Global, lexemes: &mut Lexemes<'_>) -> Result<BranchTree, ReadFault>
    ensures { Gives (λ instance. (instance, lexemes.new)) result (reader.instance_at lexemes.old) }
{
    lexemes.expect(Class::Instance)?;
    let name = lexemes.name(alloc)?;
    lexemes.expect(Class::Equals)?;
    let reference = reference(alloc, 64, lexemes)?;
    lexemes.expect(Class::Semicolon)?;
    Ok(BranchTree { name, reference })
}

/// A parameter of a template.
fn param(alloc: Global, lexemes: &mut Lexemes<'_>) -> Result<ParamTree, ReadFault>
    ensures { Gives (λ param. (param, lexemes.new)) result (reader.param_at lexemes.old) }
{
    let name = lexemes.name(alloc)?;
    lexemes.expect(Class::Colon)?;
    let interface = lexemes.name(alloc)?;
    Ok(ParamTree { name, interface })
}

/// A parameter, and more after commas.
pub fn params(alloc: Global, lexemes: &mut Lexemes<'_>) -> Result<List<ParamTree>, ReadFault>
    ensures { Gives (λ params. (params, lexemes.new)) result (reader.params_at lexemes.old) }
{
    let mut params = Vec::new(alloc);
    params.push(param(alloc, lexemes)?)?;
    while lexemes.starts(Class::Comma) {
        lexemes.skip();
        params.push(param(alloc, lexemes)?)?;
    }
    Ok(List::of(params))
}
