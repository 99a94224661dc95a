//! What holds of the files of a library. Each law is the promise of a function that does nothing.

ghost use Rattle.std.specs.Prelude.{◌≡◌, List};
ghost use Rattle.design_world.specs.Files.{File};
ghost use Rattle.design_world.specs.declared.memory.folder.MemoryFile.{MemoryFile};
ghost use Rattle.fault_list.specs.declared.fault.FileFault.{FileFault};
ghost use Rattle.library_files.specs.Branches.{HasBranch};
ghost use Rattle.library_files.specs.Parsed.{AreParsed, HasTextFault, IsWritten};
ghost use Rattle.library_files.specs.Taken.{AreTaken};
ghost use Rattle.library_files.specs.declared.parse.Parsed.{Parsed};
ghost use Rattle.order_core.specs.Pointwise.{Each};

use design_parser::tokens_write_one_tree;

/// Of the files of a folder some are taken, in one way only.
pub fn files_are_taken_in_one_way()
    ensures some { (files : List File) → (taken : List File) × AreTaken files taken }
    ensures one { (files a b : List File) → AreTaken files a → AreTaken files b → a ≡ b }
{}

/// The files of a library write one list of trees and tables at most, and then each of them is written. A file whose text has
/// a fault writes nothing.
pub fn texts_are_parsed_in_one_way()
    ensures one { (files : List MemoryFile) (a b : Parsed) → AreParsed files a → AreParsed files b → a ≡ b }
    ensures written { (files : List MemoryFile) (made : Parsed) → AreParsed files made → Each IsWritten files }
    ensures never_both { (file : MemoryFile) (fault : FileFault) → HasTextFault file fault → IsWritten file → ⊥ }
{
    tokens_write_one_tree();
}

/// The text of a file has one fault at most.
pub fn texts_have_one_fault()
    ensures { (file : MemoryFile) (a b : FileFault) → HasTextFault file a → HasTextFault file b → a ≡ b }
{}

/// Each choice that the files of a library write has a branch, as the grammar asks.
pub fn parsed_choices_have_branches()
    ensures { (files : List MemoryFile) (made : Parsed) → AreParsed files made → Each HasBranch made.files }
{}
