ghost use Rattle.std.specs.Prelude.{◌≡◌, [], OnOk};
ghost use Rattle.design_lexer.specs.Syntax.Gives.{Gives};
ghost use Rattle.design_parser.specs.Readers as reader;
ghost use Rattle.design_parser.specs.Trees as trees;
ghost use Rattle.design_parser.specs.Lists.{lists_of};

use crate::parts::{NetItem, NetLists};
use crate::ports::{port, ports};
use crate::references::{branches, instance};
use crate::rules::rule;
use crate::values::maybe_cells;
use design_lexer::{BodyTree, Class, Lexemes, NameAt, ReadFault, RowTree};
use order_core::List;
use std::alloc::{AllocError, Global};

/// A row of a catalogue.
fn row(alloc: Global, lexemes: &mut Lexemes<'_>) -> Result<RowTree, ReadFault>
    ensures { Gives (λ row. (row, lexemes.new)) result (reader.row_at lexemes.old) }
{
    lexemes.expect(Class::Row)?;
    let name = lexemes.name(alloc)?;
    lexemes.expect(Class::Colon)?;
    let provided = maybe_cells(alloc, lexemes)?;
    lexemes.expect(Class::Arrow)?;
    let required = maybe_cells(alloc, lexemes)?;
    lexemes.expect(Class::Semicolon)?;
    Ok(RowTree {
        name,
        provided,
        required,
    })
}

/// Rows, one after the other.
fn listed_rows(alloc: Global, lexemes: &mut Lexemes<'_>) -> Result<List<RowTree>, ReadFault>
    ensures { Gives (λ rows. (rows, lexemes.new)) result (reader.listed_rows_at lexemes.old) }
{
    let mut rows = Vec::new(alloc);
    while lexemes.starts(Class::Row) {
        rows.push(row(alloc, lexemes)?)?;
    }
    rows.shrink_to_fit();
    Ok(List::of(rows))
}

/// The rows of a catalogue, or the name of its table.
fn rows(
    alloc: Global,
    lexemes: &mut Lexemes<'_>,
) -> Result<(List<RowTree>, Option<NameAt>), ReadFault>
    ensures { Gives (λ rows. (rows, lexemes.new)) result (reader.rows_at lexemes.old) }
{
    if !lexemes.starts(Class::Table) {
        return Ok((listed_rows(alloc, lexemes)?, None));
    }
    lexemes.expect(Class::Table)?;
    let table = lexemes.name(alloc)?;
    lexemes.expect(Class::Semicolon)?;
    Ok((List::of(Vec::new(alloc)), Some(table)))
}

/// A catalogue.
fn catalogue(alloc: Global, lexemes: &mut Lexemes<'_>) -> Result<BodyTree, ReadFault>
    ensures { Gives (λ body. (body, lexemes.new)) result (reader.catalogue_at lexemes.old) }
{
    lexemes.expect(Class::Catalogue)?;
    lexemes.expect(Class::LeftBrace)?;
    let ports = ports(alloc, lexemes)?;
    let (rows, table) = rows(alloc, lexemes)?;
    lexemes.expect(Class::RightBrace)?;
    Ok(BodyTree::Catalogue { ports, rows, table })
}

/// A choice.
fn choose(alloc: Global, lexemes: &mut Lexemes<'_>) -> Result<BodyTree, ReadFault>
    ensures { Gives (λ body. (body, lexemes.new)) result (reader.choose_at lexemes.old) }
{
    lexemes.expect(Class::Choose)?;
    lexemes.expect(Class::LeftBrace)?;
    let branches = branches(alloc, lexemes)?;
    lexemes.expect(Class::RightBrace)?;
    Ok(BodyTree::Choose(branches))
}

/// An item of a net.
fn net_item(alloc: Global, lexemes: &mut Lexemes<'_>) -> Result<NetItem, ReadFault>
    ensures { Gives (λ item. (item, lexemes.new)) result (reader.net_item_at lexemes.old) }
{
    if lexemes.starts_any(&[Class::Provides, Class::Requires]) {
        return Ok(NetItem::Port(port(alloc, lexemes)?));
    }
    if lexemes.starts(Class::Instance) {
        return Ok(NetItem::Part(instance(alloc, lexemes)?));
    }
    Ok(NetItem::Rule(rule(alloc, lexemes)?))
}

/// Puts the item at the end of the list of its kind.
fn add(lists: &mut NetLists, item: NetItem) -> Result<(), AllocError>
    ensures { OnOk result (lists_of lists.new ≡ trees.with_item (lists_of lists.old) item) }
{
    match item {
        NetItem::Port(port) => lists.ports.push(port)?,
        NetItem::Part(part) => lists.parts.push(part)?,
        NetItem::Rule(rule) => lists.rules.push(rule)?,
    }
    Ok(())
}

/// The items of a net, one after the other.
fn net_items(alloc: Global, lexemes: &mut Lexemes<'_>) -> Result<NetLists, ReadFault>
    ensures { Gives (λ lists. (lists_of lists, lexemes.new)) result (reader.net_items_at lexemes.old) }
{
    let mut lists = NetLists {
        ports: Vec::new(alloc),
        parts: Vec::new(alloc),
        rules: Vec::new(alloc),
    };
    while lexemes.starts_any(&[
        Class::Name,
        Class::Ignore,
        Class::Instance,
        Class::Provides,
        Class::Requires,
    ]) {
        let item = net_item(alloc, lexemes)?;
        add(&mut lists, item)?;
    }
    Ok(lists)
}

/// A net.
fn net(alloc: Global, lexemes: &mut Lexemes<'_>) -> Result<BodyTree, ReadFault>
    ensures { Gives (λ body. (body, lexemes.new)) result (reader.net_at lexemes.old) }
{
    lexemes.expect(Class::Mcdp)?;
    lexemes.expect(Class::LeftBrace)?;
    let lists = net_items(alloc, lexemes)?;
    lexemes.expect(Class::RightBrace)?;
    Ok(BodyTree::Net {
        ports: List::of(lists.ports),
        parts: List::of(lists.parts),
        rules: List::of(lists.rules),
    })
}

/// The body of a design or a template.
pub fn body(alloc: Global, lexemes: &mut Lexemes<'_>) -> Result<BodyTree, ReadFault>
    ensures { Gives (λ body. (body, lexemes.new)) result (reader.body_at lexemes.old) }
{
    if lexemes.starts(Class::Catalogue) {
        return catalogue(alloc, lexemes);
    }
    if lexemes.starts(Class::Choose) {
        return choose(alloc, lexemes);
    }
    net(alloc, lexemes)
}
