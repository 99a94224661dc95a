//! What holds of expressions.

ghost use Rattle.std.specs.Prelude.{Bool, IsTrue, List};
ghost use Rattle.value_type.specs.declared.kind.Kind.{Kind};
ghost use Rattle.value_type.specs.declared.poset.Types.{Types};
ghost use Rattle.value_type.specs.declared.value.Value.{Value};
ghost use Rattle.value_type.specs.KindOrders.{AreKindOrders};
ghost use Rattle.design_model.specs.declared.expr.Expr.{Expr};
ghost use Rattle.design_model.specs.ExprKinds.{PortTypes, is_of_kind};
ghost use Rattle.design_model.specs.Reading.{reads_port};
ghost use Rattle.design_model.specs.Rows.{Row};
ghost use Rattle.design_model.specs.Typed.{IsTypedFor};
ghost use Rattle.design_model.specs.ValueOf.{Reads, reads_of, value_of};
ghost use Rattle.design_model.specs.ValuesInOrder.{AreInOrder, ReadsInOrder, ValuesLeq, ReadsLeq, FitsAt};

/// An expression of a type is worth something that the type has, and is worth no less where what it reads is no less. This holds of values in their own order, and of every family of orders that keeps numbers and tuples.
pub fn expressions_are_monotone()
    ensures orders { (t : Types) (has : Kind → Value → Bool) (order : Kind → Value → Value → Bool) → AreKindOrders t has order
        → (ports : PortTypes) (low high : Reads) (e : Expr) (k : Kind) → IsTrue (is_of_kind t ports e k)
        → ReadsInOrder has order ports (reads_port e) low high → AreInOrder has order k (value_of e low) (value_of e high) }
    ensures values { (t : Types) (ports : PortTypes) (low high : Reads) (e : Expr) (k : Kind) → IsTrue (is_of_kind t ports e k)
        → ReadsLeq t ports (reads_port e) low high → ValuesLeq t k (value_of e low) (value_of e high) }
{}

/// An expression that is typed for rows has a value of its type there.
pub fn typed_expressions_have_values()
    ensures { (t : Types) (own : Row) (inner : List Row) (e : Expr) (k : Kind) → IsTypedFor t own inner e k → FitsAt t k (value_of e (reads_of own inner)) }
{}
