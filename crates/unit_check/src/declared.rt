ghost use Rattle.std.specs.Prelude.{◌≡◌, IfOk, map, option_and_then};
ghost use Rattle.std.specs.Option.{option_copied};
ghost use Rattle.unit_check.specs.Declaring.{first_branch, named_file, next_in, part_file};
ghost use Rattle.unit_check.specs.Follow.{follow};
ghost use Rattle.unit_check.specs.Following.{AreDeclaring, next_at};

use design_lexer::{BodyTree, BranchTree, File, ParamTree};
use name_table::Names;
use order_core::{List, NoMemory};
use std::alloc::Global;

/// For each file the number of the file that declares its ports.
///
/// A choice has the ports of what its first branch names, and every other file its own.
pub fn declaring_files(alloc: Global, names: &Names) -> Result<List<u32>, NoMemory>
    ensures { IfOk result (AreDeclaring names.now.files) }
{
    let nexts = next_files(alloc, names)?;
    let size = names.files.items().len();
    let mut made = Vec::new(alloc);
    for file in 0..size as u32 {
        made.push(follow(nexts.items(), size + 1, file))?;
    }
    Ok(List::of(made))
}

/// Where at most so many steps lead from a file.
fn follow(nexts: &[Option<u32>], steps: usize, from: u32) -> u32
    ensures { result ≡ follow (next_at nexts.now) steps from }
{
    let mut at = from;
    let mut left = steps;
    while left > 0 {
        match nexts.get(at as usize) {
            Some(Some(next)) => at = *next,
            _ => return at,
        }
        left -= 1;
    }
    at
}

/// For each file that is a choice the file that its first branch names.
fn next_files(alloc: Global, names: &Names) -> Result<List<Option<u32>>, NoMemory>
    ensures { IfOk result (λ made. made ≡ map (λ f. next_in names.now.files f.tree) names.now.files) }
{
    let mut made = Vec::new(alloc);
    for file in names.files.items() {
        made.push(next_of(names, &file.tree))?;
    }
    Ok(List::of(made))
}

/// The file that the first branch of a choice names.
fn next_of(names: &Names, file: &File) -> Option<u32>
    ensures { result ≡ next_in names.now.files file.now }
{
    match file {
        File::Design(body) => branch_file(names, &[], first_branch(body)),
        File::Template(params, body) => branch_file(names, params.items(), first_branch(body)),
        _ => None,
    }
}

/// The first branch of a choice.
fn first_branch(body: &BodyTree) -> Option<&BranchTree>
    ensures { option_copied result ≡ first_branch body.now }
{
    match body {
        BodyTree::Choose(branches) => branches.get(0),
        _ => None,
    }
}

/// The file that the branch names, if there is a branch.
fn branch_file(names: &Names, params: &[ParamTree], branch: Option<&BranchTree>) -> Option<u32>
    ensures { result ≡ option_and_then (part_file names.now.files params.now) (option_copied branch.entry) }
{
    match branch {
        Some(branch) => named_file(names, params, branch.reference.name.name.as_str()),
        None => None,
    }
}

/// The file that a name stands for among parameters: the interface of the one that has it, or else the design or
/// template of this name.
fn named_file(names: &Names, params: &[ParamTree], name: &str) -> Option<u32>
    ensures { result ≡ named_file names.now.files params.now name.now }
{
    for param in params {
        if name == param.name.name.as_str() {
            return names.interface(param.interface.name.as_str());
        }
    }
    names.design(name)
}
