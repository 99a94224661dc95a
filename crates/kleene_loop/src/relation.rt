ghost use Rattle.std.specs.Prelude.{ℕ};

/// A relation between points and outcomes, which the value fixes.
pub trait Relation {
    type Item;

    /// The relation leads from the point to the outcome.
    ghost leads: { Self → Self.Item → Self.Item → Type 0 };
}
