ghost use Rattle.std.specs.Prelude.{◌≡◌, [], map};
ghost use Rattle.std.specs.List.{flat_map};
ghost use Rattle.fault_list.specs.Answers.{Answers, FindsFirst};
ghost use Rattle.reference_check.specs.Fronts.{fronts_held, sides_outlined, wanted_held};
ghost use Rattle.reference_rules.specs.Outlines.{same_outlines};
ghost use Rattle.side_ports.specs.Held.{sides_held};
ghost use Rattle.reference_rules.specs.ReferenceFaults.{branch_faults, choice_faults, differing, param_named, ports_by, reference_faults, referred};

use crate::matching::are_alike;
use crate::reference::{Scope, check_reference, matches_interface};
use design_lexer::{BodyTree, BranchTree, RefTree};
use fault_list::{Fault, FaultKind, Stop};
use side_ports::SidePorts;
use std::alloc::Global;

/// Whether no ports are the same as these.
fn is_none(ports: &SidePorts) -> bool
    ensures { result ≡ same_outlines (record { provides = []; requires_ = [] }) (sides_outlined (sides_held ports.now)) }
{
    are_alike(&[], ports.provides.items()) && are_alike(&[], ports.requires_.items())
}

/// Whether two names have the same ports. A name that leads nowhere has none.
fn have_same_ports(scope: &Scope, one: &str, other: &str) -> bool
    ensures { result ≡ same_outlines (ports_by (fronts_held scope.now.names.now.files scope.now.fronts.now) (param_named (map wanted_held scope.now.own.now.wanted) one.now) one.now) (ports_by (fronts_held scope.now.names.now.files scope.now.fronts.now) (param_named (map wanted_held scope.now.own.now.wanted) other.now) other.now) }
{
    match scope.ports(one) {
        Some(ports) => matches_interface(scope, other, ports),
        None => match scope.ports(other) {
            Some(ports) => is_none(ports),
            None => true,
        },
    }
}

/// That the ports of a branch aren't those of the first.
fn check_same(scope: &Scope, first: &RefTree, branch: &BranchTree) -> Result<(), Fault>
    ensures { FindsFirst (differing (referred (fronts_held scope.now.names.now.files scope.now.fronts.now) (map wanted_held scope.now.own.now.wanted) first.now).ports (referred (fronts_held scope.now.names.now.files scope.now.fronts.now) (map wanted_held scope.now.own.now.wanted) branch.now.reference).ports (referred (fronts_held scope.now.names.now.files scope.now.fronts.now) (map wanted_held scope.now.own.now.wanted) branch.now.reference).at) (λ _. Unit {0}) result }
{
    if !have_same_ports(
        scope,
        first.name.name.as_str(),
        branch.reference.name.name.as_str(),
    ) {
        return Err(Fault {
            kind: FaultKind::PortsDiffer,
            at: branch.reference.name.at,
        });
    }
    Ok(())
}

/// The first of what is wrong with the branches after the first: for each its own reference, and then its ports.
fn check_branches(
    alloc: Global,
    scope: &Scope,
    first: &RefTree,
    branches: &[BranchTree],
) -> Result<(), Stop<Fault>>
    ensures { Answers (flat_map (branch_faults (fronts_held scope.now.names.now.files scope.now.fronts.now) (map wanted_held scope.now.own.now.wanted) (referred (fronts_held scope.now.names.now.files scope.now.fronts.now) (map wanted_held scope.now.own.now.wanted) first.now).ports) branches.now) (λ _. Unit {0}) result }
{
    for branch in branches {
        check_reference(alloc, scope, &branch.reference)?;
        match check_same(scope, first, branch) {
            Ok(()) => {}
            Err(fault) => return Err(Stop::At(fault)),
        }
    }
    Ok(())
}

/// The first of what is wrong with the branches of a choice.
fn check_choice(alloc: Global, scope: &Scope, branches: &[BranchTree]) -> Result<(), Stop<Fault>>
    ensures { Answers (choice_faults (fronts_held scope.now.names.now.files scope.now.fronts.now) (map wanted_held scope.now.own.now.wanted) branches.now) (λ _. Unit {0}) result }
{
    match branches {
        [] => Ok(()),
        [first, others @ ..] => {
            check_reference(alloc, scope, &first.reference)?;
            check_branches(alloc, scope, &first.reference, others)
        }
    }
}

/// The first of what is wrong with the references of instances.
fn check_instances(
    alloc: Global,
    scope: &Scope,
    instances: &[BranchTree],
) -> Result<(), Stop<Fault>>
    ensures { Answers (flat_map (λ b. (referred (fronts_held scope.now.names.now.files scope.now.fronts.now) (map wanted_held scope.now.own.now.wanted) b.reference).faults) instances.now) (λ _. Unit {0}) result }
{
    for instance in instances {
        check_reference(alloc, scope, &instance.reference)?;
    }
    Ok(())
}

/// The first of what is wrong with the references of a body. In a choice each branch after the first is compared with
/// the first, after its own reference.
pub fn check_body(alloc: Global, scope: &Scope, body: &BodyTree) -> Result<(), Stop<Fault>>
    ensures { Answers (reference_faults (fronts_held scope.now.names.now.files scope.now.fronts.now) (map wanted_held scope.now.own.now.wanted) body.now) (λ _. Unit {0}) result }
{
    match body {
        BodyTree::Catalogue { .. } => Ok(()),
        BodyTree::Choose(branches) => check_choice(alloc, scope, branches.items()),
        BodyTree::Net { parts, .. } => check_instances(alloc, scope, parts.items()),
    }
}
