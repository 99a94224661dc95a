ghost use Rattle.std.specs.Prelude.{◌≡◌};
ghost use Rattle.std.specs.List.{flat_map};
ghost use Rattle.fault_list.specs.Faults.{earlier, least};
ghost use Rattle.name_rules.specs.Unknown.{ports_unknown, type_unknown, unknown_units, unknown_unless};

use crate::library::Library;
use crate::unknown::names::note_unless;
use design_lexer::{FactorTree, NameAt, PortTree, TypeTree};
use fault_list::Fault;
use unit_core::Unit;

/// Notes each factor whose name no unit has.
pub fn note_unknown_units(factors: &[FactorTree], first: &mut Option<Fault>)
    ensures { first.new ≡ earlier first.old (least (unknown_units factors.now)) }
{
    for factor in factors {
        note_unless(
            Unit::of(factor.name.name.as_str()).is_some(),
            &factor.name,
            first,
        );
    }
}

/// Notes the poset, where it isn't there.
fn note_unknown_poset<L: Library>(library: &L, poset: &NameAt, first: &mut Option<Fault>)
    ensures { first.new ≡ earlier first.old (least (unknown_unless (L.known library.now).poset poset.now)) }
{
    note_unless(library.has_poset(poset.name.as_str()), poset, first);
}

/// Notes each unit and poset of the type that isn't there.
#[cycle(types)]
fn note_unknown_type<L: Library>(library: &L, tree: &TypeTree, first: &mut Option<Fault>)
    ensures { first.new ≡ earlier first.old (least (type_unknown (L.known library.now) tree.now)) }
{
    match tree {
        TypeTree::Nat => {}
        TypeTree::Unit(factors) => note_unknown_units(factors.items(), first),
        TypeTree::Poset(poset) | TypeTree::Up(poset) => note_unknown_poset(library, poset, first),
        TypeTree::Product(parts) => note_unknown_types(library, parts.items(), first),
    }
}

/// Notes those of each of the types.
#[cycle(types)]
fn note_unknown_types<L: Library>(library: &L, trees: &[TypeTree], first: &mut Option<Fault>)
    ensures { first.new ≡ earlier first.old (least (flat_map (type_unknown (L.known library.now)) trees.now)) }
{
    for tree in trees {
        note_unknown_type(library, tree, first);
    }
}

/// Notes each unit and poset of the ports' types that isn't there.
pub fn note_unknown_ports<L: Library>(library: &L, ports: &[PortTree], first: &mut Option<Fault>)
    ensures { first.new ≡ earlier first.old (least (ports_unknown (L.known library.now) ports.now)) }
{
    for port in ports {
        note_unknown_type(library, &port.kind, first);
    }
}
