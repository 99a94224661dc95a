ghost use Rattle.std.specs.Prelude.{◌≡◌, ◌||◌, OnOk, is_some};
ghost use Rattle.fault_list.specs.Faults.{earlier, least};
ghost use Rattle.name_index.specs.Names.{number_of};
ghost use Rattle.name_rules.specs.References.{reference_names};
ghost use Rattle.name_rules.specs.Unknown.{branches_unknown, unknown_names};

use crate::library::Library;
use crate::places::names_of;
use crate::unknown::names::note_unless;
use design_lexer::{BranchTree, ParamTree, RefTree};
use fault_list::Fault;
use name_index::NameIndex;
use order_core::NoMemory;
use std::alloc::Global;

/// Whether the name is among the parameters, or some design or template has it.
fn leads_on<L: Library>(library: &L, params: &NameIndex, name: &str) -> bool
    ensures { result ≡ is_some (number_of params.now name.now) || (L.known library.now).design name.now }
{
    params.get(name).is_some() || library.has_design(name)
}

/// Notes the name of the reference where it leads nowhere, and those in its arguments.
fn note_unknown_reference<L: Library>(
    library: &L,
    params: &NameIndex,
    reference: &RefTree,
    first: &mut Option<Fault>,
)
    ensures { first.new ≡ earlier first.old (least (unknown_names (λ name. is_some (number_of params.now name) || (L.known library.now).design name) (reference_names reference.now))) }
{
    let found = leads_on(library, params, reference.name.name.as_str());
    note_unless(found, &reference.name, first);
    for argument in reference.arguments.items() {
        note_unknown_reference(library, params, &argument.reference, first);
    }
}

/// Notes the names of references that neither a parameter has nor a design or template.
pub fn note_unknown_branches<L: Library>(
    alloc: Global,
    library: &L,
    params: &[ParamTree],
    branches: &[BranchTree],
    first: &mut Option<Fault>,
) -> Result<(), NoMemory>
    ensures { OnOk result (first.new ≡ earlier first.old (least (branches_unknown (L.known library.now) params.now branches.now))) }
{
    let names = names_of(alloc, params)?;
    for branch in branches {
        note_unknown_reference(library, &names, &branch.reference, first);
    }
    Ok(())
}
