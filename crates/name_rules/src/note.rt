ghost use Rattle.std.specs.Prelude.{◌≡◌, Some};
ghost use Rattle.fault_list.specs.Faults.{earlier};
ghost use Rattle.fault_list.specs.declared.fault.Fault.{Fault};

use fault_list::{Fault, FaultKind, earlier};

/// Notes a fault, where none was noted that stands before it.
pub fn note(first: &mut Option<Fault>, kind: FaultKind, at: u64)
    ensures { first.new ≡ earlier first.old (Some (record { kind = kind; at = at })) }
{
    *first = earlier(*first, Some(Fault { kind, at }));
}
