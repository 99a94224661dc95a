//! What holds of the meanings of expressions. Each law is the promise of a function that does nothing.

ghost use Rattle.std.specs.Prelude.{◌≡◌, ℕ, [], IsTrue, Option, Some};
ghost use Rattle.design_lexer.specs.declared.tree.ExprTree.{ExprTree};
ghost use Rattle.design_lexer.specs.declared.tree.ExprTree.TheVariants as tree;
ghost use Rattle.design_lexer.specs.declared.tree.PlaceTree.{PlaceTree};
ghost use Rattle.design_model.specs.declared.expr.Expr.TheVariants as expr;
ghost use Rattle.design_model.specs.ExprKinds.{PortTypes, is_of_kind};
ghost use Rattle.expr_lower.specs.Meanings.{dimension, dims_product, lowered, number, rounded_up};
ghost use Rattle.expr_lower.specs.Reading.{Means, place_of, reading};
ghost use Rattle.expr_lower.specs.declared.meaning.Lower.{Lower};
ghost use Rattle.expr_lower.specs.declared.meaning.Meaning.{Meaning};
ghost use Rattle.expr_lower.specs.declared.meaning.Meaning.TheVariants as meaning;
ghost use Rattle.tree_units.specs.Constants.{product_of};
ghost use Rattle.tree_units.specs.declared.constant.Constant.{Constant};
ghost use Rattle.unit_core.specs.declared.dim.Dim.{Dim};
ghost use Rattle.value_type.specs.Types.{AreNamed};
ghost use Rattle.value_type.specs.declared.poset.Types.{Types};

/// An expression has a meaning exactly where it has no fault.
pub fn expressions_have_meanings_or_faults()
    ensures meaning { (types : Types) (ports : PlaceTree → Option Lower) (tree : ExprTree) → (reading types ports tree).faults ≡ [] → (m : Meaning) × (Means types ports tree m) }
    ensures faultless { (types : Types) (ports : PlaceTree → Option Lower) (tree : ExprTree) (m : Meaning) → Means types ports tree m → (reading types ports tree).faults ≡ [] }
    ensures place { (types : Types) (ports : PlaceTree → Option Lower) (tree : ExprTree) → (reading types ports tree).at ≡ place_of tree }
{}

/// Where each port that an expression may read is typed, each expression that has a meaning is typed, and of its own type.
pub fn expressions_are_typed()
    ensures { (types : Types) (kinds : PortTypes) (ports : PlaceTree → Option Lower) → AreNamed types → ((place : PlaceTree) (l : Lower) → ports place ≡ Some l → IsTrue (is_of_kind types kinds l.expr l.kind)) → (tree : ExprTree) (m : Meaning) → Means types ports tree m → IsTrue (is_of_kind types kinds (lowered m).expr (lowered m).kind) }
{}

/// A constant in a sum is rounded up, whichever side it stands on. The product of two constants is a constant. A
/// constant times any other expression scales it by the exact fraction, whichever side the constant stands on.
pub fn expressions_worked_out()
    ensures sum_left { (types : Types) (ports : PlaceTree → Option Lower) (a b : ExprTree) (at : ℕ) (c : Constant) (l : Lower) → Means types ports a (meaning.Constant c) → Means types ports b (meaning.Expression l) → dimension (meaning.Expression l) ≡ Some c.dim → Means types ports (tree.Sum a b at) (number c.dim (expr.Sum (rounded_up c).expr l.expr)) }
    ensures sum_right { (types : Types) (ports : PlaceTree → Option Lower) (a b : ExprTree) (at : ℕ) (c : Constant) (l : Lower) → Means types ports a (meaning.Expression l) → Means types ports b (meaning.Constant c) → dimension (meaning.Expression l) ≡ Some c.dim → Means types ports (tree.Sum a b at) (number c.dim (expr.Sum l.expr (rounded_up c).expr)) }
    ensures constants { (types : Types) (ports : PlaceTree → Option Lower) (a b : ExprTree) (at : ℕ) (c d k : Constant) → Means types ports a (meaning.Constant c) → Means types ports b (meaning.Constant d) → product_of c d ≡ Some k → Means types ports (tree.Product a b at) (meaning.Constant k) }
    ensures scaled_left { (types : Types) (ports : PlaceTree → Option Lower) (a b : ExprTree) (at : ℕ) (c : Constant) (l : Lower) (dim : Dim) → Means types ports a (meaning.Constant c) → Means types ports b (meaning.Expression l) → dims_product (Some c.dim) (dimension (meaning.Expression l)) ≡ Some dim → Means types ports (tree.Product a b at) (number dim (expr.Scale c.fraction l.expr)) }
    ensures scaled_right { (types : Types) (ports : PlaceTree → Option Lower) (a b : ExprTree) (at : ℕ) (c : Constant) (l : Lower) (dim : Dim) → Means types ports a (meaning.Expression l) → Means types ports b (meaning.Constant c) → dims_product (dimension (meaning.Expression l)) (Some c.dim) ≡ Some dim → Means types ports (tree.Product a b at) (number dim (expr.Scale c.fraction l.expr)) }
{}
