/// Why there is no such fraction.
#[derive(Clone, Copy, Debug, PartialEq, Eq)]
pub enum FractionFault {
    /// A part of the reduced fraction is above `MAX_PART`.
    Range,
    /// The divisor is zero.
    Zero,
}

/// Why there is no such unit.
#[derive(Clone, Copy, Debug, PartialEq, Eq)]
pub enum UnitFault {
    /// An exponent is below -9 or above 9.
    Exponent,
    /// A part of the reduced size is above `MAX_PART`.
    Range,
}
