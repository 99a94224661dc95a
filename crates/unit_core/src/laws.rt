//! What holds of the definitions. Each law is the promise of a function that does nothing.
ghost use Rattle.std.specs.Prelude.{◌≡◌, ℕ, ℤ, pos, negsuc, ◌<◌, ◌*◌, codes};
ghost use Rattle.std.specs.Int.{IsGcd};
ghost use Rattle.unit_core.specs.declared.fault.FractionFault.TheVariants.{Range, Zero};
ghost use Rattle.unit_core.specs.declared.fraction.Fraction.{Fraction};
ghost use Rattle.unit_core.specs.declared.unit.Unit.{Unit};
ghost use Rattle.unit_core.specs.Fractions.{fraction_of};
ghost use Rattle.unit_core.specs.Gcd.{gcd};
ghost use Rattle.unit_core.specs.Measure.{measure, one, power_measure};
ghost use Rattle.unit_core.specs.Ratio.{IsInLowestTerms, Ratio, lowest, quotient, ratio};
ghost use Rattle.unit_core.specs.Rounding.{IsRoundedDown, IsRoundedUp, ceiling, floor};
ghost use Rattle.unit_core.specs.UnitTable.{unit_named};

/// `gcd` divides both numbers, and each number that divides both divides it.
pub fn gcd_is_greatest()
    ensures { (a b : ℕ) → IsGcd a b (gcd a b) }
{}

/// `lowest a b` is a/b in lowest terms, and nothing else is.
pub fn lowest_is_in_lowest_terms()
    ensures is { (a b : ℕ) → 0 < b → IsInLowestTerms a b (lowest a b) }
    ensures only { (a b : ℕ) (r : Ratio) → 0 < b → IsInLowestTerms a b r → r ≡ lowest a b }
{}

/// Fractions of one ratio are one, so that what holds a fraction can be compared by equations.
pub fn same_fraction()
    ensures { (f g : Fraction) → ratio f ≡ ratio g → f ≡ g }
{}

/// Units of one measure are one.
pub fn same_unit()
    ensures { (u v : Unit) → measure u ≡ measure v → u ≡ v }
{}

/// A fraction is that of its own ratio, and of no other.
pub fn fractions_are_their_ratios()
    ensures again { (f : Fraction) → fraction_of (ratio f) ≡ Some f }
    ensures only { (r : Ratio) (f : Fraction) → fraction_of r ≡ Some f → ratio f ≡ r }
{}

/// `ceiling` rounds up and `floor` rounds down.
pub fn rounding_is_exact()
    ensures up { (a d : ℕ) → 0 < d → IsRoundedUp a d (ceiling a d) }
    ensures down { (a d : ℕ) → 0 < d → IsRoundedDown a d (floor a d) }
{}

/// To round a/b in lowest terms is to round a/b.
pub fn rounding_ignores_common_factors()
    ensures up { (a b : ℕ) → 0 < b → ceiling (lowest a b).num (lowest a b).den ≡ ceiling a b }
    ensures down { (a b : ℕ) → 0 < b → floor (lowest a b).num (lowest a b).den ≡ floor a b }
{}

/// Quotients worked out.
pub fn quotients_worked_out()
    ensures lowest { quotient 19 10 ≡ Ok (record { num = 19; den = 10 }) }
    ensures reduced { quotient 6 4 ≡ Ok (record { num = 3; den = 2 }) }
    ensures zero { quotient 0 7 ≡ Ok (record { num = 0; den = 1 }) }
    ensures no_divisor { quotient 1 0 ≡ Err Zero }
    ensures greatest { quotient 20000000000000000000 2 ≡ Ok (record { num = 10000000000000000000; den = 1 }) }
    ensures above { quotient 10000000000000000001 1 ≡ Err Range }
    // The products pass 128 bits.
    ensures long { quotient (50000000000000000000 * 10000000000000000000) (50000000000000000000 * 1) ≡ Ok (record { num = 10000000000000000000; den = 1 }) }
    ensures finest { quotient 1 10000000000000000001 ≡ Err Range }
{}

/// Units worked out.
pub fn units_worked_out()
    ensures named { unit_named (codes "kWh") ≡ Some (record { dim = record { mass = pos 1; length = pos 2; time = negsuc 1; current = pos 0; money = pos 0; bits = pos 0 }; size = record { num = 3600000000000000; den = 1 } }) }
    ensures unknown { unit_named (codes "kwh") ≡ None }
    ensures one { (n : ℤ) → power_measure one n ≡ Ok one }
{}
