ghost use Rattle.std.specs.Prelude.{◌↔◌, IsTrue};
ghost use Rattle.name_table.specs.Library.{AreSmall};

use crate::source::SourceFile;
use name_rules::is_small;

/// Whether each list in each file has fewer than 2^32 members.
pub fn are_small(files: &[SourceFile]) -> bool
    ensures { IsTrue result ↔ AreSmall files.now }
{
    for file in files {
        if !is_small(&file.tree) {
            return false;
        }
    }
    true
}
