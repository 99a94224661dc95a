ghost use Rattle.std.specs.Prelude.{◌≡◌, IfOk, IsTrue};
ghost use Rattle.design_cli.specs.Library.{Answers, IsReportOf};
ghost use Rattle.design_model.specs.Parts.{is_catalogue, provided_ports};
ghost use Rattle.design_model.specs.Typed.{IsTyped};
ghost use Rattle.library_load.specs.Loaded.{IsLibrary};
ghost use Rattle.value_type.specs.Fits.{row_fits};
ghost use Rattle.value_type.specs.PortKinds.{port_kinds};

use crate::report::report_text;
use crate::status::Status;
use catalogue_solve::minimal_rows;
use design_model::Design;
use library_load::Library;
use order_core::{NoMemory, Text};
use query_read::{Query, QueryError, QueryFault, queries_fit, read_query};
use std::alloc::Global;
use value_type::{Row, Types};

/// The report of the design of this name in a library, for a query.
pub fn answer(alloc: Global, library: &Library, name: &str, query: &str) -> Result<Text, Status>
    requires { IsLibrary library.now }
    ensures { Answers library.now name.now query.now result }
{
    queries_fit();
    let design = match library.design(alloc, name) {
        Ok(design) => design,
        Err(NoMemory) => return Err(Status::Memory),
    };
    let Query { design, f } = match read_query(alloc, library.types(), design, query) {
        Ok(query) => query,
        Err(QueryError::Refused(fault)) => return Err(Status::QueryRefused(fault)),
        Err(QueryError::Memory) => return Err(Status::Memory),
    };
    if !matches!(design, Design::Cat { .. }) {
        return Err(Status::QueryRefused(QueryFault::NotYet));
    }
    match minimal_report(alloc, library.types(), &design, &f) {
        Ok(text) => Ok(text),
        Err(NoMemory) => Err(Status::Memory),
    }
}

/// The report of the minima of a catalogue.
fn minimal_report(
    alloc: Global,
    types: &Types,
    catalogue: &Design,
    f: &Row,
) -> Result<Text, NoMemory>
    requires catalogue { IsTrue (is_catalogue catalogue.now) }
    requires typed { IsTyped types.now catalogue.now }
    requires f_fits { IsTrue (row_fits types.now (port_kinds (provided_ports catalogue.now)) f.now) }
    ensures { IfOk result (IsReportOf types.now catalogue.now f.now) }
{
    let rows = minimal_rows(alloc, types, catalogue, f)?;
    report_text(alloc, types, catalogue.required_ports(), rows.items())
}
