ghost use Rattle.std.specs.Prelude.{◌≡◌, ◌∷◌, []};
ghost use Rattle.design_lexer.specs.declared.tree.RuleTree.TheVariants as rule;
ghost use Rattle.expr_lower.specs.Reading.{no_port};
ghost use Rattle.fault_list.specs.Answers.{Answers};
ghost use Rattle.fault_list.specs.declared.fault.Stop.TheVariants.{At};
ghost use Rattle.unit_check.specs.Constraints as spec;
ghost use Rattle.unit_check.specs.Held.{ports_held};
ghost use Rattle.unit_check.specs.Rules.{rule_faults, rules_faults, sides_differ};

use crate::scope::Scope;
use design_lexer::{ExprTree, PlaceTree, RuleTree};
use design_model::Constraint;
use expr_lower::lower;
use fault_list::{Fault, FaultKind, Stop};
use name_table::Names;
use order_core::List;
use std::alloc::Global;

/// The constraints that the rules of a net write, in order, or the first of what is wrong with the rules.
pub fn constraints_of(
    alloc: Global,
    names: &Names,
    scope: &Scope,
    rules: &[RuleTree],
) -> Result<List<Constraint>, Stop<Fault>>
    ensures { Answers (rules_faults names.now.types (ports_held scope.now) rules.now) (λ made. made ≡ spec.constraints_of names.now.types (ports_held scope.now) rules.now) result }
{
    let mut made = Vec::new(alloc);
    for rule in rules {
        match constraint_of(alloc, names, scope, rule)? {
            Some(constraint) => made.push(constraint)?,
            None => {}
        }
    }
    Ok(List::of(made))
}

/// The constraint that a rule writes, if it isn't `ignore`, or the first of what is wrong with the rule.
fn constraint_of(
    alloc: Global,
    names: &Names,
    scope: &Scope,
    rule: &RuleTree,
) -> Result<Option<Constraint>, Stop<Fault>>
    ensures { Answers (rule_faults names.now.types (ports_held scope.now) rule.now) (λ made. spec.listed made ≡ spec.constraint_of names.now.types (ports_held scope.now) rule.now) result }
{
    match rule {
        RuleTree::Above { place, lower } => {
            Ok(Some(above_of(alloc, names, scope, place, lower)?))
        }
        RuleTree::Ignore(place) => {
            if scope.has_port(place) {
                Ok(None)
            } else {
                Err(no_port(place))
            }
        }
    }
}

/// That a port is at least the value of an expression, or the first of what is wrong with it.
fn above_of(
    alloc: Global,
    names: &Names,
    scope: &Scope,
    place: &PlaceTree,
    tree: &ExprTree,
) -> Result<Constraint, Stop<Fault>>
    ensures { Answers (rule_faults names.now.types (ports_held scope.now) (rule.Above place.now tree.now)) (λ made. made ∷ [] ≡ spec.constraint_of names.now.types (ports_held scope.now) (rule.Above place.now tree.now)) result }
{
    let Some((greater, kind)) = scope.greater_port(place) else {
        return Err(no_port(place));
    };
    let lower = lower(alloc, tree, &names.types, names.posets(), scope)?;
    if kind.is_same(&lower.kind) {
        Ok(Constraint {
            greater,
            lower: lower.expr,
        })
    } else {
        Err(mismatch(place))
    }
}

/// That a place is no port of the side that is wanted.
fn no_port(place: &PlaceTree) -> Stop<Fault>
    ensures { result ≡ At (no_port place.now) }
{
    Stop::At(Fault {
        kind: FaultKind::NoPort,
        at: place.first.at,
    })
}

/// That the two sides of a rule differ in type, at its greater place.
fn mismatch(place: &PlaceTree) -> Stop<Fault>
    ensures { result ≡ At (sides_differ place.now) }
{
    Stop::At(Fault {
        kind: FaultKind::Mismatch,
        at: place.first.at,
    })
}
