ghost use Rattle.value_type.specs.Types.{AreNamed};

use design_lexer::{BodyTree, File, PortTree, RowTree, Side, lex};
use design_model::{CatRow, Design};
use design_parser::{FileKind, parse_file};
use fault_list::{Fault, FaultKind, Stop};
use name_index::NameIndex;
use order_core::List;
use query_read::{QueryError, QueryFault, read_query, read_tuple};
use row_values::{Columns, rows_of_table, rows_of_trees};
use std::alloc::Global;
use std::test::Fail;
use tree_units::port_of;
use value_type::{Port, Row, Types, Value};

/// The names of rows, and their provided and required numbers. Top is the greatest of all numbers.
type Rows = &'static [(&'static str, &'static [u64], &'static [u64])];

/// What is wrong first, and where.
type Wrong = (FaultKind, u64);

/// Catalogues, and what their rows mean in the grid's units.
const CATALOGUES: [(&[u8], Result<Rows, Wrong>); 12] = [
    (
        b"catalogue { provides lift [g]; requires mass [kg]; requires cost [USD]; row a: 1.9 g -> 1.1 g, 5 USD; row b: 3 kg -> Top, 1/3 cent; }",
        Ok(&[("a", &[1], &[2, 500]), ("b", &[3000], &[u64::MAX, 1])]),
    ),
    (
        b"catalogue { provides f [Nat]; row a: 20000000000000000000/2 -> ; }",
        Ok(&[("a", &[10000000000000000000], &[])]),
    ),
    (b"catalogue { row a: -> ; }", Ok(&[("a", &[], &[])])),
    (
        b"catalogue { provides f [Nat]; }",
        Err((FaultKind::NoRows, 0)),
    ),
    (
        b"catalogue { provides f [Nat]; row a: 1, 2 -> ; }",
        Err((FaultKind::RowWidth, 34)),
    ),
    (
        b"catalogue { provides f [Nat]; requires r [Nat]; row a: 1 -> ; }",
        Err((FaultKind::RowWidth, 52)),
    ),
    (
        b"catalogue { provides f [Nat]; row a: 1 g -> ; }",
        Err((FaultKind::BadCell, 37)),
    ),
    (
        b"catalogue { provides f [Nat]; row a: 1/0 -> ; }",
        Err((FaultKind::BadCell, 37)),
    ),
    (
        b"catalogue { provides f [g]; requires r [s]; row a: 1 g -> 2 s; row b: 1 g -> 2 furlong; }",
        Err((FaultKind::BadCell, 77)),
    ),
    (
        b"catalogue { provides f [g]; requires r [s]; row a: 1 s -> 2 g; }",
        Err((FaultKind::BadCell, 51)),
    ),
    (
        b"catalogue { provides f [product(Nat, g)]; row a: <1, 2> -> ; }",
        Err((FaultKind::BadCell, 49)),
    ),
    (
        b"catalogue { provides f [Nat]; row a: grade:gold -> ; row b: 1, 2 -> ; }",
        Err((FaultKind::BadCell, 37)),
    ),
];

/// The catalogue whose table is read.
const LISTED: &[u8] =
    b"catalogue { provides lift [g]; requires mass [g]; requires cost [USD]; table list; }";

/// Tables of that catalogue, and what they mean.
const TABLES: [(&[u8], Result<Rows, Wrong>); 21] = [
    (
        b"name,lift,mass,cost\nsmall,1000 g,100 g,40 USD\nlarge,3 kg,0.4 kg,90 USD\n",
        Ok(&[
            ("small", &[1000], &[100, 4000]),
            ("large", &[3000], &[400, 9000]),
        ]),
    ),
    (
        b"name,lift,mass,cost\r\nsmall , 1.9 g,\"1.1 g\", Top\r\n",
        Ok(&[("small", &[1], &[2, u64::MAX])]),
    ),
    (
        b"\xEF\xBB\xBFname,lift,mass,cost\na,1 g,1 g,1 cent",
        Ok(&[("a", &[1], &[1, 1])]),
    ),
    (b"", Err((FaultKind::NoRows, 0))),
    (b"name,lift,mass,cost\n", Err((FaultKind::NoRows, 0))),
    // Record 0 alone is no table, whatever it says.
    (b"lift,mass\n", Err((FaultKind::NoRows, 0))),
    (
        b"name,lift,mass\na,1 g,1 g,1 cent\n",
        Err((FaultKind::RowWidth, 0)),
    ),
    (
        b"name,mass,lift,cost\na,1 g,1 g,1 cent\n",
        Err((FaultKind::BadCell, 0)),
    ),
    (
        b"names,lift,mass,cost\na,1 g,1 g,1 cent\n",
        Err((FaultKind::BadCell, 0)),
    ),
    (
        b"name,lift,mass,\na,1 g,1 g,1 cent\n",
        Err((FaultKind::BadCell, 0)),
    ),
    (
        b"name,lift,mass,cost\na,1 g,1 g\n",
        Err((FaultKind::RowWidth, 1)),
    ),
    (
        b"name,lift,mass,cost\na,1 g,1 g,1 cent\nb,1 g,1 g,1 cent,2\n",
        Err((FaultKind::RowWidth, 2)),
    ),
    (
        b"name,lift,mass,cost\na,1 g,1 g,1 cent\nb,1 g,1 s,1 cent\n",
        Err((FaultKind::BadCell, 2)),
    ),
    (
        b"name,lift,mass,cost\na,1 g,1 g,1 cent\na,2 g,2 g,2 cent\n",
        Err((FaultKind::BadCell, 2)),
    ),
    (
        b"name,lift,mass,cost\na b,1 g,1 g,1 cent\n",
        Err((FaultKind::BadCell, 1)),
    ),
    (
        b"name,lift,mass,cost\n1,1 g,1 g,1 cent\n",
        Err((FaultKind::BadCell, 1)),
    ),
    (
        b"name,lift,mass,cost\n,1 g,1 g,1 cent\n",
        Err((FaultKind::BadCell, 1)),
    ),
    (
        b"name,lift,mass,cost\na,,1 g,1 cent\n",
        Err((FaultKind::BadCell, 1)),
    ),
    (
        b"name,lift,mass,cost\na,\"1 g, 2 g\",1 g,1 cent\n",
        Err((FaultKind::BadCell, 1)),
    ),
    (
        b"name,lift,mass,cost\na,1 \xFF,1 g,1 cent\n",
        Err((FaultKind::BadCell, 1)),
    ),
    (
        b"name,lift,mass,cost\na,1 ?,1 g,1 cent\n",
        Err((FaultKind::BadCell, 1)),
    ),
];

/// A query or a tuple: its numbers in the grid's units, or what is wrong with it.
type Written = Result<&'static [u64], QueryFault>;

/// The ports of designs, queries for them, and what these are.
const QUERIES: [(&[u8], &str, Written); 11] = [
    (NATURAL, "90", Ok(&[90])),
    (NATURAL, "90 g", Err(QueryFault::Kind { index: 0 })),
    (
        NATURAL,
        "90, 1",
        Err(QueryFault::Width {
            found: 2,
            wanted: 1,
        }),
    ),
    (NATURAL, "90,", Err(QueryFault::Syntax { at: 3 })),
    (NATURAL, "90 , ?", Err(QueryFault::Syntax { at: 5 })),
    (
        NATURAL,
        "",
        Err(QueryFault::Width {
            found: 0,
            wanted: 1,
        }),
    ),
    (b"catalogue { row a: -> ; }", "", Ok(&[])),
    (MASS, "0.5 kg", Ok(&[500])),
    (MASS, "1.9 g", Ok(&[2])),
    (MASS, "Top", Ok(&[u64::MAX])),
    (
        b"catalogue { provides f [g]; provides h [s]; provides k [Nat]; row a: 1 g, 1 s, 1 -> ; }",
        "1 g, 1 g, 1 g",
        Err(QueryFault::Kind { index: 1 }),
    ),
];

/// The ports of designs, tuples of required values for them, and what these are.
const TUPLES: [(&[u8], &str, Written); 5] = [
    (MASS, "1.9 g", Ok(&[1])),
    (MASS, "1.9 s", Err(QueryFault::TupleKind { index: 0 })),
    (
        NATURAL,
        "1",
        Err(QueryFault::TupleWidth {
            found: 1,
            wanted: 0,
        }),
    ),
    (NATURAL, "", Ok(&[])),
    (MASS, "1 g 1", Err(QueryFault::TupleSyntax { at: 4 })),
];

/// A catalogue with a provided number, and one with a provided and a required mass.
const NATURAL: &[u8] = b"catalogue { provides f [Nat]; row a: 1 -> ; }";

const MASS: &[u8] = b"catalogue { provides f [g]; requires r [g]; row a: 1 g -> 1 g; }";

/// The ports of a catalogue, by their sides.
#[derive(Drop)]
struct Ports {
    provides: Vec<Port>,
    requires_: Vec<Port>,
}

/// The ports and rows of a catalogue.
fn catalogue(file: &File) -> Option<(&[PortTree], &[RowTree])> {
    match file {
        File::Design(BodyTree::Catalogue { ports, rows, .. }) => {
            Some((ports.items(), rows.items()))
        }
        _ => None,
    }
}

fn file_of(alloc: Global, text: &[u8]) -> Option<File> {
    let tokens = lex(alloc, text).ok()?;
    parse_file(alloc, FileKind::Design, text, &tokens).ok()
}

fn ports_of(alloc: Global, trees: &[PortTree]) -> Option<Ports> {
    let mut ports = Ports {
        provides: Vec::new(alloc),
        requires_: Vec::new(alloc),
    };
    let posets = NameIndex::new(alloc);
    for tree in trees {
        let port = port_of(alloc, tree, &posets).ok()?;
        match tree.side {
            Side::Provides => ports.provides.push(port).ok()?,
            Side::Requires => ports.requires_.push(port).ok()?,
        }
    }
    Some(ports)
}

/// The types of a library without posets.
fn no_posets(alloc: Global) -> Types
    ensures { AreNamed result }
{
    Types {
        posets: List::of(Vec::new(alloc)),
    }
}

/// Whether the row has these numbers, and no other values.
fn has_numbers(row: &Row, want: &[u64]) -> bool {
    let values = row.values();
    if values.len() != want.len() {
        return false;
    }
    for (at, value) in values.iter().enumerate() {
        let number = match value {
            Value::Num(count) => *count,
            Value::Top => u64::MAX,
            _ => return false,
        };
        if number != want[at] {
            return false;
        }
    }
    true
}

fn are_rows(rows: &[CatRow], want: Rows) -> bool {
    if rows.len() != want.len() {
        return false;
    }
    for (at, row) in rows.iter().enumerate() {
        let (name, provided, required) = want[at];
        if row.name.as_str() != name
            || !has_numbers(&row.provided, provided)
            || !has_numbers(&row.required, required)
        {
            return false;
        }
    }
    true
}

/// Whether the answer is the rows, or the fault.
fn is_wanted(answer: Result<List<CatRow>, Stop<Fault>>, want: Result<Rows, Wrong>) -> bool {
    match (answer, want) {
        (Ok(rows), Ok(want)) => are_rows(rows.items(), want),
        (Err(Stop::At(fault)), Err((kind, at))) => fault.kind == kind && fault.at == at,
        _ => false,
    }
}

/// What the rows of the catalogue mean. None where its text can't be read.
fn rows(alloc: Global, text: &[u8]) -> Option<Result<List<CatRow>, Stop<Fault>>> {
    let file = file_of(alloc, text)?;
    let (trees, rows) = catalogue(&file)?;
    let ports = ports_of(alloc, trees)?;
    let types = no_posets(alloc);
    Some(rows_of_trees(
        alloc,
        rows,
        &types,
        ports.provides.as_slice(),
        ports.requires_.as_slice(),
    ))
}

/// What the table means for the listed catalogue. None where that can't be read.
fn listed(alloc: Global, bytes: &[u8]) -> Option<Result<List<CatRow>, Stop<Fault>>> {
    let file = file_of(alloc, LISTED)?;
    let (trees, _) = catalogue(&file)?;
    let ports = ports_of(alloc, trees)?;
    if ports.provides.len() > 9 || ports.requires_.len() > 9 {
        return None;
    }
    let types = no_posets(alloc);
    let columns = Columns {
        types: &types,
        provides: ports.provides.as_slice(),
        requires_: ports.requires_.as_slice(),
    };
    Some(rows_of_table(alloc, bytes, &columns))
}

#[test]
fn rows_mean_values_or_the_first_fault_is_found(rt: HostRuntime) -> Result<(), Fail> {
    for (text, want) in CATALOGUES {
        let answer = rows(rt.alloc(), text);
        assert!(rt; matches!(answer, Some(_)));
        if let Some(answer) = answer {
            assert!(rt; is_wanted(answer, want));
        }
    }
    Ok(())
}

#[test]
fn tables_mean_rows_or_the_first_bad_record_is_found(rt: HostRuntime) -> Result<(), Fail> {
    for (bytes, want) in TABLES {
        let answer = listed(rt.alloc(), bytes);
        assert!(rt; matches!(answer, Some(_)));
        if let Some(answer) = answer {
            assert!(rt; is_wanted(answer, want));
        }
    }
    Ok(())
}

/// A catalogue without rows that has the ports of this text.
fn design_of(alloc: Global, text: &[u8]) -> Option<Design> {
    let file = file_of(alloc, text)?;
    let (trees, _) = catalogue(&file)?;
    let ports = ports_of(alloc, trees)?;
    Some(Design::Cat {
        provides: List::of(ports.provides),
        requires_: List::of(ports.requires_),
        rows: List::of(Vec::new(alloc)),
    })
}

fn is_written(row: &Row, want: Written) -> bool {
    match want {
        Ok(numbers) => has_numbers(row, numbers),
        Err(_) => false,
    }
}

fn is_refused(error: QueryError, want: Written) -> bool {
    match (error, want) {
        (QueryError::Refused(fault), Err(wrong)) => fault == wrong,
        _ => false,
    }
}

/// Whether the query for the design of these ports is what is wanted. None where the design can't be read.
fn query_is(alloc: Global, ports: &[u8], text: &str, want: Written) -> Option<bool> {
    let design = design_of(alloc, ports)?;
    let types = no_posets(alloc);
    match read_query(alloc, &types, Some(design), text) {
        Ok(query) => Some(is_written(&query.f, want)),
        Err(error) => Some(is_refused(error, want)),
    }
}

/// The same of a tuple.
fn tuple_is(alloc: Global, ports: &[u8], text: &str, want: Written) -> Option<bool> {
    let design = design_of(alloc, ports)?;
    let types = no_posets(alloc);
    match read_tuple(alloc, &types, &design, text) {
        Ok(row) => Some(is_written(&row, want)),
        Err(error) => Some(is_refused(error, want)),
    }
}

#[test]
fn queries_and_tuples_are_read_or_refused(rt: HostRuntime) -> Result<(), Fail> {
    for (ports, text, want) in QUERIES {
        assert!(rt; matches!(query_is(rt.alloc(), ports, text, want), Some(true)));
    }
    for (ports, text, want) in TUPLES {
        assert!(rt; matches!(tuple_is(rt.alloc(), ports, text, want), Some(true)));
    }
    let nothing = read_query(rt.alloc(), &no_posets(rt.alloc()), None, "?");
    assert!(rt; matches!(nothing, Err(QueryError::Refused(QueryFault::NoDesign))));
    Ok(())
}
