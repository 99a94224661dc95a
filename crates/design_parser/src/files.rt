ghost use Rattle.std.specs.Prelude.{◌≡◌};
ghost use Rattle.design_lexer.specs.Syntax.Gives.{Gives};
ghost use Rattle.design_parser.specs.Readers as reader;

use crate::bodies::body;
use crate::names::{listed, names};
use crate::parse::FileKind;
use crate::ports::ports;
use crate::references::params;
use design_lexer::{Class, File, Lexemes, NameAt, PortTree, PosetTree, ReadFault};
use order_core::List;
use std::alloc::Global;

/// A chain of a poset.
fn chain(alloc: Global, lexemes: &mut Lexemes<'_>) -> Result<List<NameAt>, ReadFault>
    ensures { Gives (λ chain. (chain, lexemes.new)) result (reader.chain_at lexemes.old) }
{
    let first = lexemes.name(alloc)?;
    lexemes.expect(Class::AtMost)?;
    let mut chain = listed(alloc, Class::AtMost, lexemes)?;
    lexemes.expect(Class::Semicolon)?;
    chain.insert(0, first)?;
    Ok(List::of(chain))
}

/// Chains, one after the other.
fn chains(alloc: Global, lexemes: &mut Lexemes<'_>) -> Result<List<List<NameAt>>, ReadFault>
    ensures { Gives (λ chains. (chains, lexemes.new)) result (reader.chains_at lexemes.old) }
{
    let mut chains = Vec::new(alloc);
    while lexemes.starts(Class::Name) {
        chains.push(chain(alloc, lexemes)?)?;
    }
    Ok(List::of(chains))
}

/// A poset.
fn poset(alloc: Global, lexemes: &mut Lexemes<'_>) -> Result<PosetTree, ReadFault>
    ensures { Gives (λ poset. (poset, lexemes.new)) result (reader.poset_at lexemes.old) }
{
    lexemes.expect(Class::Poset)?;
    lexemes.expect(Class::LeftBrace)?;
    lexemes.expect(Class::Elements)?;
    let elements = names(alloc, lexemes)?;
    lexemes.expect(Class::Semicolon)?;
    let chains = chains(alloc, lexemes)?;
    lexemes.expect(Class::RightBrace)?;
    Ok(PosetTree { elements, chains })
}

/// An interface.
fn interface(alloc: Global, lexemes: &mut Lexemes<'_>) -> Result<List<PortTree>, ReadFault>
    ensures { Gives (λ ports. (ports, lexemes.new)) result (reader.interface_at lexemes.old) }
{
    lexemes.expect(Class::Interface)?;
    lexemes.expect(Class::LeftBrace)?;
    let ports = ports(alloc, lexemes)?;
    lexemes.expect(Class::RightBrace)?;
    Ok(ports)
}

/// A template.
fn template(alloc: Global, lexemes: &mut Lexemes<'_>) -> Result<File, ReadFault>
    ensures { Gives (λ file. (file, lexemes.new)) result (reader.template_at lexemes.old) }
{
    lexemes.expect(Class::Template)?;
    lexemes.expect(Class::Less)?;
    let params = params(alloc, lexemes)?;
    lexemes.expect(Class::Greater)?;
    let body = body(alloc, lexemes)?;
    Ok(File::Template(params, body))
}

/// A file of the kind.
pub fn file(alloc: Global, kind: FileKind, lexemes: &mut Lexemes<'_>) -> Result<File, ReadFault>
    ensures { Gives (λ file. (file, lexemes.new)) result (reader.file_at kind lexemes.old) }
{
    match kind {
        FileKind::Poset => Ok(File::Poset(poset(alloc, lexemes)?)),
        FileKind::Interface => Ok(File::Interface(interface(alloc, lexemes)?)),
        FileKind::Design => Ok(File::Design(body(alloc, lexemes)?)),
        FileKind::Template => template(alloc, lexemes),
    }
}
