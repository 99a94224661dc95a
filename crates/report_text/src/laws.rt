//! What holds of the definitions.

ghost use Rattle.std.specs.Prelude.{ℕ, ◌<◌, ◌≤◌, List};
ghost use Rattle.report_text.specs.Counts.{IsFractionText};
ghost use Rattle.report_text.specs.Texts.{value_text};
ghost use Rattle.unit_core.specs.Ratio.{greatest_part};
ghost use Rattle.unit_core.specs.declared.dim.Dim.{Dim};
ghost use Rattle.value_type.specs.declared.kind.Kind.TheVariants as kind;
ghost use Rattle.value_type.specs.declared.port.PortUnit.TheVariants as unit;
ghost use Rattle.value_type.specs.declared.poset.Types.{Types};
ghost use Rattle.value_type.specs.declared.value.Value.TheVariants as value;

/// Each count that a port with a unit may have is written as a fraction in lowest terms, the count over the unit's size, and the unit.
pub fn counts_are_fractions()
    ensures { (t : Types) (dim : Dim) (name : List ℕ) (size count : ℕ) → 0 < size → size ≤ greatest_part → count ≤ greatest_part → IsFractionText count size name (value_text t (kind.Num dim) (unit.Unit name size) (value.Num count)) }
{}
