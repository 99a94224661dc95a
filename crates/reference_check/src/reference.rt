ghost use Rattle.std.specs.Prelude.{◌≡◌, ◌<◌, ◌^◌, [], length, map, option_map, slice_get};
ghost use Rattle.std.specs.List.{flat_map};
ghost use Rattle.design_lexer.specs.declared.tree.ArgTree.{out-ArgTree};
ghost use Rattle.fault_list.specs.Answers.{Answers, FindsFirst};
ghost use Rattle.reference_check.specs.Fronts.{front_held, front_in, fronts_held, outlined_in, sides_outlined, wanted_held};
ghost use Rattle.reference_meaning.specs.Sources.{argument_of, name_of};
ghost use Rattle.reference_rules.specs.Outlines.{same_outlines};
ghost use Rattle.reference_rules.specs.ReferenceFaults.{argument_faults, param_named, ports_by, referred, unknown, unmatched};
ghost use Rattle.reference_rules.specs.ReferenceLaws.{argued};
ghost use Rattle.side_ports.specs.Held.{sides_held};

use crate::arguments::check_given;
use crate::front::Front;
use crate::matching::{are_alike, are_same};
use design_lexer::{ArgTree, RefTree};
use fault_list::{Fault, FaultKind, Stop};
use name_table::Names;
use side_ports::SidePorts;
use std::alloc::Global;

/// What a reference may name: the fronts of a library's files, and the parameters of the file where it stands.
#[derive(Clone, Copy)]
pub struct Scope<'a> {
    pub names: &'a Names,
    /// For each file its front, if it is a design or template.
    pub fronts: &'a [Option<Front>],
    /// The front of the file in which references stand.
    pub own: &'a Front,
}

impl<'a> Scope<'a> {
    /// The front of the design or template of this name.
    fn file(&self, name: &str) -> Option<&'a Front>
        ensures { option_map (λ f. front_held f.now) result ≡ fronts_held self.now.names.now.files self.now.fronts.now name.now }
    {
        let number = self.names.design(name)?;
        front_at(self.fronts, number)
    }

    /// The ports of what has this name.
    pub(crate) fn ports(&self, name: &str) -> Option<&'a SidePorts>
        ensures { outlined_in (option_map (λ p. p.now) result) ≡ ports_by (fronts_held self.now.names.now.files self.now.fronts.now) (param_named (map wanted_held self.now.own.now.wanted) name.now) name.now }
    {
        match self.own.named(name) {
            Some(parameter) => Some(parameter.ports.get()),
            None => match self.file(name) {
                Some(front) => Some(front.ports.get()),
                None => None,
            },
        }
    }
}

/// The front of the file of this number.
pub(crate) fn front_at(fronts: &[Option<Front>], number: u32) -> Option<&Front>
    ensures { option_map (λ f. front_held f.now) result ≡ front_in (slice_get fronts.now number) }
{
    match fronts.get(number as usize) {
        Some(Some(front)) => Some(front),
        _ => None,
    }
}

/// The first argument of a parameter, which has no parameters.
fn check_parameter(arguments: &[ArgTree]) -> Result<(), Fault>
    ensures { FindsFirst (flat_map (unknown []) (map (λ a. (out-ArgTree a).name) arguments.now)) (λ _. Unit {0}) result }
{
    match arguments.first() {
        Some(argument) => Err(Fault {
            kind: FaultKind::ArgumentUnknown,
            at: argument.name.at,
        }),
        None => Ok(()),
    }
}

/// Whether ports are those that the name has. A name that leads nowhere has none.
pub(crate) fn matches_interface(scope: &Scope, name: &str, wanted: &SidePorts) -> bool
    ensures { result ≡ same_outlines (sides_outlined (sides_held wanted.now)) (ports_by (fronts_held scope.now.names.now.files scope.now.fronts.now) (param_named (map wanted_held scope.now.own.now.wanted) name.now) name.now) }
{
    match scope.ports(name) {
        Some(ports) => are_same(wanted, ports),
        None => is_empty(wanted),
    }
}

/// Whether there are no ports.
fn is_empty(ports: &SidePorts) -> bool
    ensures { result ≡ same_outlines (sides_outlined (sides_held ports.now)) (record { provides = []; requires_ = [] }) }
{
    are_alike(ports.provides.items(), &[]) && are_alike(ports.requires_.items(), &[])
}

/// That the ports of an argument aren't those of the parameter's interface.
fn check_match(scope: &Scope, callee: &Front, argument: &ArgTree) -> Result<(), Fault>
    ensures { FindsFirst (unmatched (param_named (map wanted_held callee.now.wanted) (out-ArgTree argument.now).name.name) (referred (fronts_held scope.now.names.now.files scope.now.fronts.now) (map wanted_held scope.now.own.now.wanted) (argument_of argument.now))) (λ _. Unit {0}) result }
{
    let Some(parameter) = callee.named(argument.name.name.as_str()) else {
        return Ok(());
    };
    if !matches_interface(
        scope,
        argument.reference.name.name.as_str(),
        parameter.ports.get(),
    ) {
        return Err(Fault {
            kind: FaultKind::PortsDiffer,
            at: argument.reference.name.at,
        });
    }
    Ok(())
}

/// The first of what is wrong with a reference: a name that leads nowhere, an argument that names no parameter, a
/// parameter that has no argument, and then for each argument its own reference and its match.
#[cycle(check_reference)]
pub fn check_reference(alloc: Global, scope: &Scope, reference: &RefTree) -> Result<(), Stop<Fault>>
    ensures { Answers (referred (fronts_held scope.now.names.now.files scope.now.fronts.now) (map wanted_held scope.now.own.now.wanted) reference.now).faults (λ _. Unit {0}) result }
{
    let arguments = reference.arguments.items();
    if scope.own.named(reference.name.name.as_str()).is_some() {
        return match check_parameter(arguments) {
            Ok(()) => Ok(()),
            Err(fault) => Err(Stop::At(fault)),
        };
    }
    match scope.file(reference.name.name.as_str()) {
        Some(callee) => {
            check_given(alloc, callee, arguments, reference.name.at)?;
            check_arguments(alloc, scope, callee, arguments)
        }
        None => Err(Stop::At(Fault {
            kind: FaultKind::Unknown,
            at: reference.name.at,
        })),
    }
}

/// The first of what is wrong with arguments: for each its own reference, and then its match.
#[cycle(check_reference)]
fn check_arguments(
    alloc: Global,
    scope: &Scope,
    callee: &Front,
    arguments: &[ArgTree],
) -> Result<(), Stop<Fault>>
    ensures { Answers (flat_map (argument_faults (map wanted_held callee.now.wanted)) (map (argued (fronts_held scope.now.names.now.files scope.now.fronts.now) (map wanted_held scope.now.own.now.wanted)) arguments.now)) (λ _. Unit {0}) result }
{
    for argument in arguments {
        check_reference(alloc, scope, &argument.reference)?;
        match check_match(scope, callee, argument) {
            Ok(()) => {}
            Err(fault) => return Err(Stop::At(fault)),
        }
    }
    Ok(())
}
