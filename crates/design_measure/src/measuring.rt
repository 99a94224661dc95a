ghost use Rattle.std.specs.Prelude.{◌≡◌, ◌<◌, ◌^◌};
ghost use Rattle.design_measure.specs.Scales.{IsMeasure, Measure};

/// A way to measure designs.
pub trait Measuring {
    ghost measure: { Self → Measure };

    /// Two values, added.
    fn plus(&self, x: u64, y: u64) -> u64
        ensures { result ≡ (measure self.now).scale.plus x y };

    /// A value, multiplied by a factor.
    fn times(&self, x: u64, y: u64) -> u64
        ensures { result ≡ (measure self.now).scale.times x y };

    /// What a catalogue of so many rows measures.
    fn catalogue(&self, rows: u64) -> u64
        requires { rows < 2 ^ 63 }
        ensures { result ≡ (measure self.now).catalogue rows };

    /// What a choice has of its own.
    fn choice(&self) -> u64
        ensures { result ≡ (measure self.now).choice };

    /// What a net of so many constraints has of its own.
    fn net(&self, constraints: u64) -> u64
        requires { constraints < 2 ^ 63 }
        ensures { result ≡ (measure self.now).net constraints };

    /// The factor of branches and parts.
    fn step(&self) -> u64
        ensures { result ≡ (measure self.now).step };

    ghost laws: { (m : Self) → IsMeasure (measure m) };
}

/// The size of a design, as far as one more than the greatest that is accepted.
pub struct Sizes;

impl Measuring for Sizes {
    ghost use Rattle.design_measure.specs.Limits.{sizes_to};
    ghost use Rattle.design_measure.specs.LimitsLaws.{sizes_are};

    ghost measure = { λ s. sizes_to 10001 };

    fn plus(&self, x: u64, y: u64) -> u64 {
        x.saturating_add(y).min(10_001)
    }

    fn times(&self, x: u64, y: u64) -> u64 {
        x.saturating_mul(y).min(10_001)
    }

    fn catalogue(&self, rows: u64) -> u64 {
        (rows + 1).min(10_001)
    }

    fn choice(&self) -> u64 {
        1
    }

    fn net(&self, constraints: u64) -> u64 {
        constraints + 1
    }

    fn step(&self) -> u64 {
        1
    }

    ghost laws = { λ m. sizes_are 10001 };
}

/// One more than the depth of a design, as far as two more than the greatest that is accepted.
pub struct Depths;

impl Measuring for Depths {
    ghost use Rattle.design_measure.specs.Limits.{depths_to};
    ghost use Rattle.design_measure.specs.LimitsLaws.{depths_are_told};

    ghost measure = { λ s. depths_to 66 };

    fn plus(&self, x: u64, y: u64) -> u64 {
        x.max(y).min(66)
    }

    #[tactic(auto, using(crate::specs::LimitsLaws::deepen_some, crate::specs::LimitsLaws::deepen_zero))]
    fn times(&self, x: u64, y: u64) -> u64 {
        if x == 0 {
            return 0;
        }
        if y == 0 {
            return 0;
        }
        (x - 1).saturating_add(y).min(66)
    }

    fn catalogue(&self, _rows: u64) -> u64 {
        2
    }

    fn choice(&self) -> u64 {
        2
    }

    fn net(&self, _constraints: u64) -> u64 {
        2
    }

    fn step(&self) -> u64 {
        2
    }

    ghost laws = { λ m. depths_are_told };
}
