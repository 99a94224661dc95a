//! What holds of the ports of files and the types of rules. Each law is the promise of a function that does nothing.

ghost use Rattle.std.specs.Prelude.{◌≡◌, ◌∷◌, ℕ, List, None, Some, [], slice_get};
ghost use Rattle.design_lexer.specs.declared.tree.ExprTree.{ExprTree};
ghost use Rattle.design_lexer.specs.declared.tree.PlaceTree.{PlaceTree};
ghost use Rattle.design_lexer.specs.declared.tree.RuleTree.{RuleTree};
ghost use Rattle.design_lexer.specs.declared.tree.RuleTree.TheVariants as rule;
ghost use Rattle.design_model.specs.Typed.{ConstraintIsTyped, IsTyped};
ghost use Rattle.design_model.specs.declared.design.Design.TheVariants as design;
ghost use Rattle.design_model.specs.declared.design.Part.{Part};
ghost use Rattle.design_model.specs.declared.expr.Constraint.{Constraint};
ghost use Rattle.fault_list.specs.declared.fault.FaultKind.TheVariants.{Unknown};
ghost use Rattle.fault_list.specs.declared.fault.FileFault.{FileFault};
ghost use Rattle.name_table.specs.declared.source.SourceFile.{SourceFile};
ghost use Rattle.order_core.specs.Members.{IsMember};
ghost use Rattle.order_core.specs.Pointwise.{Each};
ghost use Rattle.unit_check.specs.Constraints.{FitParts, constraint_of, constraints_of, scope_wiring};
ghost use Rattle.unit_check.specs.Declaring.{choice_of, declaring, next_file, ports_at, ports_in};
ghost use Rattle.unit_check.specs.Rules.{rule_faults, rules_faults};
ghost use Rattle.unit_check.specs.Scopes.{ScopePorts, scope_at};
ghost use Rattle.unit_check.specs.TypeFaults.{rules_of, type_faults};
ghost use Rattle.value_type.specs.Types.{AreNamed};
ghost use Rattle.value_type.specs.declared.poset.Types.{Types};

use expr_lower::{expressions_are_typed, expressions_have_meanings_or_faults};
use name_table::Names;
use tree_units::ports_are_whole;

/// A choice has the ports of what its first branch names, and every other file its own: the way from a choice to its
/// first branch ends.
pub fn choices_have_the_ports_of_their_first_branch(names: &Names)
    ensures first { (i j : ℕ) → next_file names.now.files i ≡ Some j → ports_at names.now.files i ≡ ports_at names.now.files j }
    ensures own { (i : ℕ) (f : SourceFile) → slice_get names.now.files i ≡ Some f → choice_of f.tree ≡ None → ports_at names.now.files i ≡ ports_in f.tree }
    ensures ends { (i : ℕ) → next_file names.now.files (declaring names.now.files i) ≡ None }
{
    let _names = names;
}

/// Rules without a fault write typed constraints, one for each that isn't `ignore`.
pub fn rules_are_typed()
    ensures one { (types : Types) (scope : ScopePorts) (place : PlaceTree) (tree : ExprTree) → AreNamed types → rule_faults types scope (rule.Above place tree) ≡ [] → (c : Constraint) × (constraint_of types scope (rule.Above place tree) ≡ c ∷ []) }
    ensures each { (types : Types) (scope : ScopePorts) (rules : List RuleTree) → AreNamed types → rules_faults types scope rules ≡ [] → Each (ConstraintIsTyped types (scope_wiring scope (constraints_of types scope rules))) (constraints_of types scope rules) }
{
    expressions_have_meanings_or_faults();
    expressions_are_typed();
}

/// A net whose rules have no fault is a typed design with any typed designs as its parts that have the types of ports
/// which its instances have.
pub fn nets_are_typed(names: &Names)
    ensures { (i : ℕ) (f : SourceFile) → slice_get names.now.files i ≡ Some f → rules_faults names.now.types (scope_at names.now.files names.now.types i f.tree) (rules_of f.tree) ≡ [] → (designs : List Part) → FitParts (scope_at names.now.files names.now.types i f.tree).parts designs → Each (λ part. IsTyped names.now.types part.design) designs
        → IsTyped names.now.types (design.Net (scope_at names.now.files names.now.types i f.tree).own.provides (scope_at names.now.files names.now.types i f.tree).own.requires_ designs (constraints_of names.now.types (scope_at names.now.files names.now.types i f.tree) (rules_of f.tree))) }
{
    let _names = names;
    rules_are_typed();
    ports_are_whole();
}

/// In a library whose names are in order no name in a type or an expression leads nowhere, so no fault of its types is
/// `Unknown`.
pub fn names_leave_nothing_unknown(names: &Names)
    ensures { (fault : FileFault) → IsMember fault (type_faults names.now.files names.now.types) → fault.kind ≡ Unknown → ⊥ }
{
    let _names = names;
}
