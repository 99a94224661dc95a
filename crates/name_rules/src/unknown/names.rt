ghost use Rattle.std.specs.Prelude.{◌≡◌, is_some, not};
ghost use Rattle.fault_list.specs.Faults.{earlier, fault_if, least};
ghost use Rattle.name_index.specs.Names.{number_of};
ghost use Rattle.name_rules.specs.Unknown.{unknown, unknown_names};

use crate::note::note;
use design_lexer::NameAt;
use fault_list::{Fault, FaultKind};
use name_index::NameIndex;

/// Notes the name, unless it is found.
pub fn note_unless(found: bool, name: &NameAt, first: &mut Option<Fault>)
    ensures { first.new ≡ earlier first.old (least (fault_if (not found) (unknown name.now))) }
{
    if !found {
        note(first, FaultKind::Unknown, name.at);
    }
}

/// Notes each of the names that isn't in the index.
pub fn note_not_in(index: &NameIndex, names: &[NameAt], first: &mut Option<Fault>)
    ensures { first.new ≡ earlier first.old (least (unknown_names (λ name. is_some (number_of index.now name)) names.now)) }
{
    for name in names {
        note_unless(index.get(name.name.as_str()).is_some(), name, first);
    }
}
