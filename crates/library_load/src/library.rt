ghost use Rattle.std.specs.Prelude.{◌≡◌, IfOk, MatchOption, None, option_and_then, slice_get};
ghost use Rattle.std.specs.Option.{option_copied};
ghost use Rattle.design_model.specs.Typed.{IsTyped};
ghost use Rattle.library_load.specs.Designs.{IsDesign, design_file};
ghost use Rattle.library_load.specs.Loaded.{IsLibrary};
ghost use Rattle.library_load.specs.Named.{IsModuleNamed};
ghost use Rattle.reference_meaning.specs.Sources as meaning;

use crate::laws::designs_are_typed;
use catalogue_read::files_have_one_list_of_rows;
use design_lexer::File;
use design_model::Design;
use name_table::Names;
use order_core::{List, NoMemory};
use reference_meaning::{Module, modules_denote_what_files_do};
use std::alloc::Global;
use template_expand::expand;
use value_type::Types;

/// The files of a library that is accepted, and what its designs and templates say: each one's ports, rows and
/// constraints are kept once, with the names in its references resolved.
#[derive(Drop)]
pub struct Library {
    pub(crate) names: Names,
    pub(crate) modules: List<Option<Module>>,
}

impl Library {
    /// The names of the library's files.
    pub fn names(&self) -> &Names
        ensures { result.now ≡ self.now.names }
    {
        &self.names
    }

    /// The posets of the library.
    pub fn types(&self) -> &Types
        ensures { result.now ≡ self.now.names.types }
    {
        &self.names.types
    }

    /// The design of this name, with all that it refers to in its place. There is none exactly where no `.mcdp` file has
    /// the name.
    pub fn design(&self, alloc: Global, stem: &str) -> Result<Option<Design>, NoMemory>
        requires { IsLibrary self.now }
        ensures { IfOk result (λ found. MatchOption found (design_file self.now.names.files stem.now ≡ None)
            (λ X. IsDesign self.now.names.files self.now.names.tables self.now.names.types stem.now X × IsTyped self.now.names.types X)) }
    {
        designs_are_typed(&self.names);
        files_have_one_list_of_rows();
        modules_denote_what_files_do();
        match self.module(stem) {
            Some(named) => Ok(Some(expand(alloc, self.modules.items(), named)?)),
            None => Ok(None),
        }
    }

    /// The module of the design of this name.
    fn module(&self, stem: &str) -> Option<&Module>
        requires { IsLibrary self.now }
        ensures { MatchOption (option_copied result) (design_file self.now.names.files stem.now ≡ None) (IsModuleNamed self.now stem.now) }
    {
        let Some(number) = self.names.design(stem) else {
            return None;
        };
        if !is_closed(&self.names.files.items()[number as usize].tree) {
            return None;
        }
        module_at(self.modules.items(), number as usize)
    }
}

/// The module of this number.
fn module_at(modules: &[Option<Module>], number: usize) -> Option<&Module>
    ensures { option_copied result ≡ option_and_then (λ m. m) (slice_get modules.now number) }
{
    match modules.get(number) {
        Some(Some(named)) => Some(named),
        _ => None,
    }
}

/// Whether the file is a design, which has no parameters.
fn is_closed(tree: &File) -> bool
    ensures { result ≡ meaning.is_closed tree.now }
{
    matches!(tree, File::Design(_))
}
