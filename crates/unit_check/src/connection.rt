ghost use Rattle.std.specs.Prelude.{◌≡◌, ◌++◌, ◌<◌, ◌^◌, [], length};
ghost use Rattle.std.specs.List.{flat_map};
ghost use Rattle.fault_list.specs.Answers.{Answers};
ghost use Rattle.fault_list.specs.Faults.{in_file};
ghost use Rattle.name_rules.specs.Sizes.{IsSmall, IsSmallBody};
ghost use Rattle.unit_check.specs.Connection.{body_unconnected, connection_faults, file_unconnected, own_unconnected, part_unconnected};
ghost use Rattle.unit_check.specs.Following.{AreDeclaring};

use crate::connected::{check_own, check_parts};
use crate::declared::declaring_files;
use crate::named::named_ports;
use crate::parameters::Parameters;
use design_lexer::{BodyTree, BranchTree, File, ParamTree, PortTree, RuleTree};
use fault_list::{Fault, StageFault, Stop, in_file};
use name_table::{Names, SourceFile};
use std::alloc::Global;

/// The first port of a library's nets that isn't connected.
///
/// `Unconnected` stands at the name of an own required port that no rule constrains or ignores, or of an instance that
/// has a provided port which none constrains or ignores, or a required one which none reads or ignores. Files come in
/// order, and in each its own ports before its instances.
pub fn check_connected(alloc: Global, names: &Names) -> Result<(), StageFault>
    ensures { Answers (connection_faults names.now.files) (λ _. Unit {0}) result }
{
    let declaring = declaring_files(alloc, names)?;
    for file in names.files.items() {
        check_file(alloc, names, declaring.items(), file)?;
    }
    Ok(())
}

/// The first port of the file's net that isn't connected.
fn check_file(
    alloc: Global,
    names: &Names,
    declaring: &[u32],
    file: &SourceFile,
) -> Result<(), StageFault>
    requires declaring { AreDeclaring names.now.files declaring.now }
    requires small { IsSmall file.now.tree }
    ensures { Answers (in_file file.now.name (file_unconnected names.now.files file.now.tree)) (λ _. Unit {0}) result }
{
    match check_tree(alloc, names, declaring, &file.tree) {
        Ok(()) => Ok(()),
        Err(stop) => Err(in_file(alloc, &file.name, stop)),
    }
}

fn check_tree(
    alloc: Global,
    names: &Names,
    declaring: &[u32],
    tree: &File,
) -> Result<(), Stop<Fault>>
    requires declaring { AreDeclaring names.now.files declaring.now }
    requires small { IsSmall tree.now }
    ensures { Answers (file_unconnected names.now.files tree.now) (λ _. Unit {0}) result }
{
    match tree {
        File::Design(body) => check_body(alloc, names, declaring, &[], body),
        File::Template(params, body) => check_body(alloc, names, declaring, params.items(), body),
        _ => Ok(()),
    }
}

fn check_body(
    alloc: Global,
    names: &Names,
    declaring: &[u32],
    params: &[ParamTree],
    body: &BodyTree,
) -> Result<(), Stop<Fault>>
    requires declaring { AreDeclaring names.now.files declaring.now }
    requires few { length params.now < 2 ^ 32 }
    requires small { IsSmallBody body.now }
    ensures { Answers (body_unconnected names.now.files params.now body.now) (λ _. Unit {0}) result }
{
    match body {
        BodyTree::Net {
            ports,
            parts,
            rules,
        } => check_net(
            alloc,
            names,
            declaring,
            params,
            ports.items(),
            parts.items(),
            rules.items(),
        ),
        _ => Ok(()),
    }
}

/// The first own required port, and otherwise the first instance, that isn't connected by the rules.
fn check_net(
    alloc: Global,
    names: &Names,
    declaring: &[u32],
    params: &[ParamTree],
    ports: &[PortTree],
    parts: &[BranchTree],
    rules: &[RuleTree],
) -> Result<(), Stop<Fault>>
    requires declaring { AreDeclaring names.now.files declaring.now }
    requires few_params { length params.now < 2 ^ 32 }
    requires few_parts { length parts.now < 2 ^ 32 }
    ensures { Answers (flat_map (own_unconnected rules.now) ports.now ++ flat_map (part_unconnected names.now.files params.now rules.now) parts.now) (λ _. Unit {0}) result }
{
    let named = named_ports(alloc, parts, rules)?;
    check_own(&named.own, ports)?;
    let params = Parameters::of(alloc, params)?;
    check_parts(names, declaring, &params, &named, parts)
}
