ghost use Rattle.std.specs.Prelude.{◌≡◌, ◌++◌, IfOk, codes, string_bytes};
ghost use Rattle.std.specs.Fmt.{decimal};
ghost use Rattle.design_cli.specs.Lines as spec;

use crate::status::Status;
use fault_list::{FaultKind, FileFault};
use library_load::LibraryFault;
use query_read::QueryFault;
use std::alloc::{AllocError, Global};

const USAGE: &str =
    "usage: mcdpl solve|explain|certify FOLDER NAME QUERY [--rounds N], check FOLDER NAME QUERY, show FOLDER NAME, generate START SIZE";

/// The line for standard error that a status has.
#[tactic(auto, unfolding(crate::specs::Lines::usage_line))]
pub fn line(alloc: Global, status: &Status) -> Result<String, AllocError>
    ensures { IfOk result (λ text. string_bytes text ≡ spec.line_of status.now) }
{
    match status {
        Status::Done => Ok(String::new(alloc)),
        Status::Usage => String::from_str(alloc, USAGE),
        Status::LibraryRefused(fault) => library_line(alloc, fault),
        Status::QueryRefused(fault) => query_line(alloc, fault),
        Status::FolderFault => String::from_str(alloc, "folder fault"),
        Status::SinkFault => String::from_str(alloc, "sink fault"),
        Status::Memory => String::from_str(alloc, "out of memory"),
    }
}

/// What is wrong with a library.
fn library_line(alloc: Global, fault: &LibraryFault) -> Result<String, AllocError>
    ensures { IfOk result (λ text. string_bytes text ≡ spec.library_line fault.now) }
{
    match fault {
        LibraryFault::TooManyFiles { count } => numbered(alloc, "too many files: ", *count),
        LibraryFault::FileTooLong { file } => format!(in alloc; "file too long: {}", file.as_str()),
        LibraryFault::LibraryTooLong { file } => {
            format!(in alloc; "library too long: {}", file.as_str())
        }
        LibraryFault::Refused(fault) => fault_line(alloc, fault),
    }
}

/// The file, the kind of the fault and its place.
fn fault_line(alloc: Global, fault: &FileFault) -> Result<String, AllocError>
    ensures { IfOk result (λ text. string_bytes text ≡ spec.fault_line fault.now) }
{
    format!(in alloc;
        "{}: {} at {}",
        fault.file.as_str(),
        kind_text(fault.kind),
        fault.at
    )
}

/// What is wrong with a query or a tuple.
fn query_line(alloc: Global, fault: &QueryFault) -> Result<String, AllocError>
    ensures { IfOk result (λ text. string_bytes text ≡ spec.query_line fault.now) }
{
    match fault {
        QueryFault::NoDesign => String::from_str(alloc, "query: no design"),
        QueryFault::Syntax { at } => numbered(alloc, "query: syntax at ", *at),
        QueryFault::Width { found, wanted } => {
            format!(in alloc; "query: {} values for {} ports", *found, *wanted)
        }
        QueryFault::Kind { index } => numbered(alloc, "query: wrong value ", *index),
        QueryFault::NotYet => String::from_str(alloc, "query: not yet"),
        QueryFault::TupleSyntax { at } => numbered(alloc, "tuple: syntax at ", *at),
        QueryFault::TupleWidth { found, wanted } => {
            format!(in alloc; "tuple: {} values for {} ports", *found, *wanted)
        }
        QueryFault::TupleKind { index } => numbered(alloc, "tuple: wrong value ", *index),
    }
}

/// The words and then the number.
fn numbered(alloc: Global, words: &str, number: u64) -> Result<String, AllocError>
    ensures { IfOk result (λ text. string_bytes text ≡ words.now ++ decimal number) }
{
    format!(in alloc; "{}{}", words, number)
}

/// The name of a kind of fault.
#[tactic(auto, unfolding(crate::specs::Lines::kind_text))]
fn kind_text(kind: FaultKind) -> &'static str
    ensures { result.now ≡ spec.kind_text kind }
{
    match kind {
        FaultKind::NotText => "NotText",
        FaultKind::BadToken => "BadToken",
        FaultKind::Syntax => "Syntax",
        FaultKind::Twice => "Twice",
        FaultKind::Unknown => "Unknown",
        FaultKind::EmptyPoset => "EmptyPoset",
        FaultKind::LargePoset => "LargePoset",
        FaultKind::NotAnOrder => "NotAnOrder",
        FaultKind::Circular => "Circular",
        FaultKind::Exponent => "Exponent",
        FaultKind::ConstantRange => "ConstantRange",
        FaultKind::PortGrid => "PortGrid",
        FaultKind::ZeroDivisor => "ZeroDivisor",
        FaultKind::NoPort => "NoPort",
        FaultKind::Mismatch => "Mismatch",
        FaultKind::Unconnected => "Unconnected",
        FaultKind::NoRows => "NoRows",
        FaultKind::RowWidth => "RowWidth",
        FaultKind::BadCell => "BadCell",
        FaultKind::ArgumentUnknown => "ArgumentUnknown",
        FaultKind::ArgumentMissing => "ArgumentMissing",
        FaultKind::PortsDiffer => "PortsDiffer",
        FaultKind::TooDeep => "TooDeep",
        FaultKind::TooLarge => "TooLarge",
    }
}
