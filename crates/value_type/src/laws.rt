//! What holds of the definitions.

ghost use Rattle.std.specs.Prelude.{◌≡◌, ◌↔◌, ◌<◌, ◌*◌, ℕ, List, IsTrue};
ghost use Rattle.std.specs.Cmp.{IsTotalOrder};
ghost use Rattle.std.specs.declared.cmp.Ordering.TheVariants.{Equal};
ghost use Rattle.order_core.specs.declared.num.Num.{Num};
ghost use Rattle.order_core.specs.Num.{count_or_top};
ghost use Rattle.order_core.specs.Order.{IsOrder};
ghost use Rattle.unit_core.specs.Ratio.{Ratio};
ghost use Rattle.unit_core.specs.Rounding.{IsRoundedUp};
ghost use Rattle.value_type.specs.declared.kind.Kind.{Kind};
ghost use Rattle.value_type.specs.declared.poset.Types.{Types};
ghost use Rattle.value_type.specs.declared.value.Value.{Value};
ghost use Rattle.value_type.specs.Fits.{fits};
ghost use Rattle.value_type.specs.Leq.{leq};
ghost use Rattle.value_type.specs.PrintOrder.{value_cmp, row_cmp};
ghost use Rattle.value_type.specs.SameForm.{same_form, same_kind};
ghost use Rattle.value_type.specs.Scale.{scaled};

/// On the values of each type, `leq` is reflexive, transitive and antisymmetric.
pub fn values_are_in_order()
    ensures { (t : Types) (k : Kind) → IsOrder (fits t k) (leq t k) }
{}

/// A count scaled by a fraction is the least whole count that is at least their product, or Top where that is too great. Top scaled by zero is zero, and by anything else Top.
pub fn scaling_is_exact()
    ensures zero { (by : Ratio) → by.num ≡ 0 → scaled by Num.Top ≡ Num.Count 0 }
    ensures top { (by : Ratio) → 0 < by.num → scaled by Num.Top ≡ Num.Top }
    ensures counts { (by : Ratio) (x y : ℕ) → 0 < by.den → IsRoundedUp (by.num * x) by.den y → scaled by (Num.Count x) ≡ count_or_top y }
{}

/// Each type has its own form, whatever the dimensions of its numbers are taken to be. Types of one form and the same dimensions are one.
pub fn types_have_forms()
    ensures form { (k : Kind) → IsTrue (same_form k k) }
    ensures same { (j k : Kind) → IsTrue (same_kind j k) ↔ (j ≡ k) }
{}

/// The print orders are total, and only a value or row itself compares as equal to it.
pub fn print_orders_are_total()
    ensures values { IsTotalOrder value_cmp }
    ensures same_value { (v w : Value) → value_cmp v w ≡ Equal → v ≡ w }
    ensures rows { IsTotalOrder row_cmp }
    ensures same_row { (v w : List Value) → row_cmp v w ≡ Equal → v ≡ w }
{}
