ghost use Rattle.std.specs.Prelude.{◌≡◌, is_some, map};
ghost use Rattle.std.specs.List.{flat_map, list_all};
ghost use Rattle.design_lexer.specs.declared.tree.ArgTree.{out-ArgTree};
ghost use Rattle.fault_list.specs.Answers.{Answers, FindsFirst};
ghost use Rattle.name_index.specs.Names.{number_of};
ghost use Rattle.reference_check.specs.Fronts.{wanted_held};
ghost use Rattle.reference_rules.specs.ReferenceFaults.{given_faults, missing, unknown};

use crate::front::{Front, Wanted};
use design_lexer::ArgTree;
use fault_list::{Fault, FaultKind, Stop};
use name_index::NameIndex;
use name_rules::names_of;
use std::alloc::Global;

/// The first argument that names no parameter.
fn find_unknown(wanted: &Front, arguments: &[ArgTree]) -> Result<(), Fault>
    ensures { FindsFirst (flat_map (unknown (map wanted_held wanted.now.wanted)) (map (λ a. (out-ArgTree a).name) arguments.now)) (λ _. Unit {0}) result }
{
    for argument in arguments {
        if wanted.named(argument.name.name.as_str()).is_none() {
            return Err(Fault {
                kind: FaultKind::ArgumentUnknown,
                at: argument.name.at,
            });
        }
    }
    Ok(())
}

/// Whether each parameter has an argument.
fn all_given(wanted: &[Wanted], given: &NameIndex) -> bool
    ensures { result ≡ list_all (λ w. is_some (number_of given.now w.name)) wanted.now }
{
    wanted
        .iter()
        .all(|parameter| given.get(parameter.name.as_str()).is_some())
}

/// The first of what is wrong with the names of arguments: one that names no parameter, or a parameter that has none.
pub fn check_given(
    alloc: Global,
    wanted: &Front,
    arguments: &[ArgTree],
    at: u64,
) -> Result<(), Stop<Fault>>
    ensures { Answers (given_faults (map wanted_held wanted.now.wanted) (map (λ a. (out-ArgTree a).name) arguments.now) at) (λ _. Unit {0}) result }
{
    match find_unknown(wanted, arguments) {
        Ok(()) => {}
        Err(fault) => return Err(Stop::At(fault)),
    }
    let given = names_of(alloc, arguments)?;
    if !all_given(wanted.wanted.items(), &given) {
        return Err(Stop::At(Fault {
            kind: FaultKind::ArgumentMissing,
            at,
        }));
    }
    Ok(())
}
