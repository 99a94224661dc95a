ghost use Rattle.std.specs.Prelude.{◌≡◌, IfOk};
ghost use Rattle.design_cli.specs.Lines.{code_of, line_of};

use crate::lines::line;
use library_load::LibraryFault;
use order_core::{NoMemory, Text};
use query_read::QueryFault;
use std::alloc::Global;

/// How a run of the program ended.
#[derive(Debug, Drop)]
pub enum Status {
    /// The report was written.
    Done,
    /// The words ask nothing.
    Usage,
    LibraryRefused(LibraryFault),
    QueryRefused(QueryFault),
    /// The folder couldn't be listed, or a file of it read.
    FolderFault,
    /// The report couldn't be written whole.
    SinkFault,
    /// Memory was refused.
    Memory,
}

impl Status {
    ghost use Rattle.design_cli.specs.Lines.{code_of};

    /// The program's exit code.
    pub fn code(&self) -> u8
        ensures { result ≡ code_of self.now }
    {
        match self {
            Status::Done => 0,
            Status::Usage => 2,
            Status::LibraryRefused(_) => 4,
            Status::QueryRefused(_) => 5,
            Status::FolderFault => 7,
            Status::SinkFault => 9,
            Status::Memory => 70,
        }
    }

    /// The line for standard error, without its end, which is empty for `Done`.
    pub fn text(&self, alloc: Global) -> Result<Text, NoMemory>
        ensures { IfOk result (λ text. text ≡ line_of self.now) }
    {
        match line(alloc, self) {
            Ok(text) => Ok(Text::of(text)),
            Err(_) => Err(NoMemory),
        }
    }
}
