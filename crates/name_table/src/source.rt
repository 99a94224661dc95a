use design_lexer::File;
use order_core::{List, Text};

/// A file of a library, as it has been read.
#[derive(Drop)]
pub struct SourceFile {
    /// Its name in the folder.
    pub name: Text,
    /// Its name without its ending.
    pub stem: Text,
    pub tree: File,
}

/// A table of a library: a file of comma-separated values.
#[derive(Drop)]
pub struct Table {
    /// Its name in the folder.
    pub name: Text,
    /// Its name without its ending.
    pub stem: Text,
    pub bytes: List<u8>,
}
