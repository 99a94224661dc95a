ghost use Rattle.std.specs.Prelude.{◌≡◌, [], IfOk, IsErrOf, None, Some, slice_get};
ghost use Rattle.module_link.specs.Contents.{bare_sources, content_of};
ghost use Rattle.module_link.specs.Links.{Finds, links_of};
ghost use Rattle.name_rules.specs.Sizes.{IsSmall};
ghost use Rattle.reference_meaning.specs.Linking.{IsBodyOf};
ghost use Rattle.reference_meaning.specs.Sources as meaning;
ghost use Rattle.unit_check.specs.Constraints as spec;
ghost use Rattle.unit_check.specs.Declaring as declaring;
ghost use Rattle.unit_check.specs.Held.{IsTable};
ghost use Rattle.unit_check.specs.Scopes.{scope_at};
ghost use Rattle.unit_check.specs.TypeFaults.{rules_of, type_faults};

use crate::fault::LinkFault;
use crate::linking::links_of;
use design_lexer::{BodyTree, BranchTree, File, ParamTree, RuleTree};
use design_model::{CatRow, Constraint};
use name_table::{Names, SourceFile};
use order_core::{List, NoMemory};
use reference_meaning::{Link, ModuleBody};
use std::alloc::Global;
use unit_check::{Parameters, PortTable, constraints_of};

/// The body of the module of a file, which has this body and these rows.
pub fn body_of(
    alloc: Global,
    names: &Names,
    table: &mut PortTable,
    number: u32,
    file: &SourceFile,
    body: &BodyTree,
    rows: List<CatRow>,
) -> Result<ModuleBody, LinkFault>
    requires table { IsTable names.now.files names.now.types table.old }
    requires types { type_faults names.now.files names.now.types ≡ [] }
    requires number { slice_get names.now.files number ≡ Some file.now }
    requires body { meaning.body_of file.now.tree ≡ Some body.now }
    ensures table { IsTable names.now.files names.now.types table.new }
    ensures body { IfOk result (IsBodyOf (bare_sources names.now.files) (meaning.params_of file.now.tree) (content_of names.now.files names.now.types number file.now rows) body.now) }
    ensures unresolved { IsErrOf result LinkFault.Unresolved → links_of names.now.files (meaning.params_of file.now.tree) (meaning.branches_of body.now) ≡ None }
{
    match body {
        BodyTree::Catalogue { .. } => Ok(ModuleBody::Catalogue(rows)),
        BodyTree::Choose(branches) => {
            let branches = file_links(alloc, names, &file.tree, branches.items())?;
            Ok(ModuleBody::Choice(branches))
        }
        BodyTree::Net { parts, rules, .. } => {
            let parts = file_links(alloc, names, &file.tree, parts.items())?;
            let constraints = file_constraints(alloc, names, table, number, file, rules.items())?;
            Ok(ModuleBody::Net { parts, constraints })
        }
    }
}

/// The links of a file's branches or instances.
fn file_links(
    alloc: Global,
    names: &Names,
    tree: &File,
    branches: &[BranchTree],
) -> Result<List<Link>, LinkFault>
    requires small { IsSmall tree.now }
    ensures { Finds (links_of names.now.files (meaning.params_of tree.now) branches.now) result }
{
    let params = Parameters::of(alloc, params_of(tree))?;
    links_of(alloc, names, &params, branches)
}

/// The parameters of a file.
fn params_of(file: &File) -> &[ParamTree]
    ensures { result.now ≡ declaring.params_of file.now }
{
    match file {
        File::Template(params, _) => params.items(),
        _ => &[],
    }
}

/// The constraints that a file's rules write. They have no fault, so only memory can be wanting.
fn file_constraints(
    alloc: Global,
    names: &Names,
    table: &mut PortTable,
    number: u32,
    file: &SourceFile,
    rules: &[RuleTree],
) -> Result<List<Constraint>, NoMemory>
    requires table { IsTable names.now.files names.now.types table.old }
    requires types { type_faults names.now.files names.now.types ≡ [] }
    requires number { slice_get names.now.files number ≡ Some file.now }
    requires rules { rules.now ≡ rules_of file.now.tree }
    ensures table { IsTable names.now.files names.now.types table.new }
    ensures constraints { IfOk result (λ made. made ≡ spec.constraints_of names.now.types (scope_at names.now.files names.now.types number file.now.tree) (rules_of file.now.tree)) }
{
    let scope = match table.scope(alloc, names, number) {
        Ok(scope) => scope,
        Err(_) => return Err(NoMemory),
    };
    match constraints_of(alloc, names, &scope, rules) {
        Ok(constraints) => Ok(constraints),
        Err(_) => Err(NoMemory),
    }
}
