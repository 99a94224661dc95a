ghost use Rattle.std.specs.Prelude.{◌≡◌, option_map};
ghost use Rattle.catalogue_read.specs.Catalogues.{catalogue_in, catalogue_of};
ghost use Rattle.catalogue_read.specs.Held.{written};

use design_lexer::{BodyTree, File, NameAt, PortTree, RowTree};

/// What a catalogue writes: its ports, and its rows or the name of the table that has them.
#[derive(Clone, Copy)]
pub struct CatalogueTree<'a> {
    pub ports: &'a [PortTree],
    pub rows: &'a [RowTree],
    pub table: Option<&'a NameAt>,
}

/// The catalogue of a design or a template that is one.
pub fn catalogue_of(file: &File) -> Option<CatalogueTree>
    ensures { option_map written result ≡ catalogue_of file.now }
{
    match file {
        File::Design(body) => catalogue_in(body),
        File::Template(_, body) => catalogue_in(body),
        _ => None,
    }
}

fn catalogue_in(body: &BodyTree) -> Option<CatalogueTree>
    ensures { option_map written result ≡ catalogue_in body.now }
{
    match body {
        BodyTree::Catalogue { ports, rows, table } => Some(CatalogueTree {
            ports: ports.items(),
            rows: rows.items(),
            table: table.as_ref(),
        }),
        _ => None,
    }
}
