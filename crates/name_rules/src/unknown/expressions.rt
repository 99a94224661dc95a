ghost use Rattle.std.specs.Prelude.{◌≡◌, [], ◌∷◌};
ghost use Rattle.std.specs.List.{flat_map};
ghost use Rattle.fault_list.specs.Faults.{earlier, least};
ghost use Rattle.name_rules.specs.Unknown.{expr_unknown, literal_unknown, rule_unknown, rules_unknown, unknown_names};

use crate::library::Library;
use crate::note::note;
use crate::unknown::names::note_unless;
use crate::unknown::types::note_unknown_units;
use design_lexer::{ExprTree, NameAt, RuleTree};
use fault_list::{Fault, FaultKind};

/// Notes the poset of the element where it isn't there, and otherwise the element where the poset lacks it.
fn note_unknown_element<L: Library>(
    library: &L,
    poset: &NameAt,
    element: &NameAt,
    first: &mut Option<Fault>,
)
    ensures { first.new ≡ earlier first.old (least (literal_unknown (L.known library.now) poset.now (element.now ∷ []))) }
{
    if library.has_poset(poset.name.as_str()) {
        let found = library.has_element(poset.name.as_str(), element.name.as_str());
        note_unless(found, element, first);
    } else {
        note(first, FaultKind::Unknown, poset.at);
    }
}

/// Notes each of the elements that the poset lacks.
fn note_lacking<L: Library>(
    library: &L,
    poset: &NameAt,
    elements: &[NameAt],
    first: &mut Option<Fault>,
)
    ensures { first.new ≡ earlier first.old (least (unknown_names ((L.known library.now).element poset.now.name) elements.now)) }
{
    for element in elements {
        let found = library.has_element(poset.name.as_str(), element.name.as_str());
        note_unless(found, element, first);
    }
}

/// Notes the poset of the upper set where it isn't there, and otherwise each element that it lacks.
fn note_unknown_upper<L: Library>(
    library: &L,
    poset: &NameAt,
    elements: &[NameAt],
    first: &mut Option<Fault>,
)
    ensures { first.new ≡ earlier first.old (least (literal_unknown (L.known library.now) poset.now elements.now)) }
{
    if library.has_poset(poset.name.as_str()) {
        note_lacking(library, poset, elements, first);
    } else {
        note(first, FaultKind::Unknown, poset.at);
    }
}

/// Notes each unit, poset and element of the expression that isn't there.
#[cycle(expressions)]
fn note_unknown_in_expr<L: Library>(library: &L, expr: &ExprTree, first: &mut Option<Fault>)
    ensures { first.new ≡ earlier first.old (least (expr_unknown (L.known library.now) expr.now)) }
{
    match expr {
        ExprTree::Constant(constant) => note_unknown_units(constant.unit.items(), first),
        ExprTree::Place(_) => {}
        ExprTree::Element { poset, element } => {
            note_unknown_element(library, poset, element, first);
        }
        ExprTree::Upper { poset, elements } => {
            note_unknown_upper(library, poset, elements.items(), first);
        }
        ExprTree::Sum { left, right, .. }
        | ExprTree::Product { left, right, .. }
        | ExprTree::Greatest { left, right, .. }
        | ExprTree::Lesser { left, right, .. } => {
            note_unknown_in_expr(library, left.get(), first);
            note_unknown_in_expr(library, right.get(), first);
        }
        ExprTree::Tuple { parts, .. } => note_unknown_in_parts(library, parts.items(), first),
    }
}

/// Notes those of each of the parts.
#[cycle(expressions)]
fn note_unknown_in_parts<L: Library>(library: &L, parts: &[ExprTree], first: &mut Option<Fault>)
    ensures { first.new ≡ earlier first.old (least (flat_map (expr_unknown (L.known library.now)) parts.now)) }
{
    for part in parts {
        note_unknown_in_expr(library, part, first);
    }
}

/// Notes each unit, poset and element of the rule that isn't there.
fn note_unknown_in_rule<L: Library>(library: &L, rule: &RuleTree, first: &mut Option<Fault>)
    ensures { first.new ≡ earlier first.old (least (rule_unknown (L.known library.now) rule.now)) }
{
    match rule {
        RuleTree::Above { lower, .. } => note_unknown_in_expr(library, lower, first),
        RuleTree::Ignore(_) => {}
    }
}

/// Notes each unit, poset and element of the rules that isn't there.
pub fn note_unknown_in_rules<L: Library>(library: &L, rules: &[RuleTree], first: &mut Option<Fault>)
    ensures { first.new ≡ earlier first.old (least (rules_unknown (L.known library.now) rules.now)) }
{
    for rule in rules {
        note_unknown_in_rule(library, rule, first);
    }
}
