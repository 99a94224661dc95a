ghost use Rattle.std.specs.Prelude.{◌≡◌, ◌<◌, ℕ, IfOk, List, Some, length, map, slice_get};
ghost use Rattle.design_lexer.specs.declared.tree.ArgTree.{ArgTree as Argument};
ghost use Rattle.module_link.specs.Contents.{bare_sources};
ghost use Rattle.module_link.specs.Links.{Finds, links_of, resolved_in};
ghost use Rattle.name_index.specs.Names.{number_of};
ghost use Rattle.name_index.specs.Places.{place_of};
ghost use Rattle.reference_meaning.specs.Linking.{filled, source_params};
ghost use Rattle.reference_meaning.specs.LinkingLaws.{fill};
ghost use Rattle.reference_meaning.specs.Sources.{argument_of, parameter_of};
ghost use Rattle.tree_units.specs.Together.{together};
ghost use Rattle.unit_check.specs.Declaring as spec;

use crate::fault::LinkFault;
use design_lexer::{ArgTree, BranchTree, File, ParamTree, RefTree};
use name_index::NameIndex;
use name_rules::places_of;
use name_table::Names;
use order_core::{List, NoMemory};
use reference_meaning::{Link, Resolved};
use std::alloc::Global;
use unit_check::Parameters;

/// The reference with its names resolved, in a file with these parameters.
#[cycle(resolve)]
pub fn resolve(
    alloc: Global,
    names: &Names,
    params: &Parameters,
    reference: &RefTree,
) -> Result<Resolved, LinkFault>
    ensures { Finds (resolved_in names.now.files (map (λ p. p.name.name) params.now.trees.now) reference.now) result }
{
    let name = reference.name.name.as_str();
    match params.number(name) {
        Some(number) => Ok(Resolved::Parameter(number)),
        None => match names.design(name) {
            Some(number) => {
                let wanted = params_at(names, number);
                let arguments = reference.arguments.items();
                let arguments = resolve_arguments(alloc, names, params, wanted, arguments)?;
                Ok(Resolved::Module { number, arguments })
            }
            None => Err(LinkFault::Unresolved),
        },
    }
}

/// For each of the wanted parameters its argument with the names resolved.
#[cycle(resolve)]
fn resolve_arguments(
    alloc: Global,
    names: &Names,
    params: &Parameters,
    wanted: &[ParamTree],
    arguments: &[ArgTree],
) -> Result<List<Resolved>, LinkFault>
    ensures { Finds (together (map (λ p. filled (map (fill (bare_sources names.now.files) (map (λ p. p.name.name) params.now.trees.now)) arguments.now) p.name.name) wanted.now)) result }
{
    let places = argument_places(alloc, arguments)?;
    let mut made = Vec::new(alloc);
    for parameter in wanted {
        let Some(place) = places.get(parameter.name.name.as_str()) else {
            return Err(LinkFault::Unresolved);
        };
        made.push(resolve_argument(alloc, names, params, arguments, place)?)?;
    }
    Ok(List::of(made))
}

/// What the argument at a place refers to, with the names resolved.
#[cycle(resolve)]
fn resolve_argument(
    alloc: Global,
    names: &Names,
    params: &Parameters,
    arguments: &[ArgTree],
    place: u32,
) -> Result<Resolved, LinkFault>
    requires { place < length arguments.now }
    ensures { (a : Argument) → slice_get arguments.now place ≡ Some a → Finds (resolved_in names.now.files (map (λ p. p.name.name) params.now.trees.now) (argument_of a)) result }
{
    resolve(alloc, names, params, &arguments[place as usize].reference)
}

/// The places of arguments by the names of their parameters. More than 2^32 of them count as more than memory can hold.
fn argument_places(alloc: Global, arguments: &[ArgTree]) -> Result<NameIndex, NoMemory>
    ensures { IfOk result (λ places. (name : List ℕ) → number_of places name ≡ place_of parameter_of arguments.now name) }
{
    if arguments.len() > u32::MAX as usize {
        return Err(NoMemory);
    }
    places_of(alloc, arguments)
}

/// The parameters of the file of this number.
fn params_at(names: &Names, number: u32) -> &[ParamTree]
    ensures { map (λ p. p.name.name) result.now ≡ source_params (slice_get (bare_sources names.now.files) number) }
{
    match names.files.items().get(number as usize) {
        Some(file) => params_of(&file.tree),
        None => &[],
    }
}

/// The parameters of a file.
fn params_of(file: &File) -> &[ParamTree]
    ensures { result.now ≡ spec.params_of file.now }
{
    match file {
        File::Template(params, _) => params.items(),
        _ => &[],
    }
}

/// The links of branches or instances, in a file with these parameters.
pub fn links_of(
    alloc: Global,
    names: &Names,
    params: &Parameters,
    branches: &[BranchTree],
) -> Result<List<Link>, LinkFault>
    ensures { Finds (links_of names.now.files (map (λ p. p.name.name) params.now.trees.now) branches.now) result }
{
    let mut made = Vec::new(alloc);
    for branch in branches {
        let name = branch.name.name.copy(alloc)?;
        let reference = resolve(alloc, names, params, &branch.reference)?;
        made.push(Link { name, reference })?;
    }
    Ok(List::of(made))
}
