//! Why transform parameters are refused, and where.

/// Why transform parameters are refused.
#[derive(Clone, Copy, Debug, PartialEq, Eq)]
pub enum TransformReason {
    /// The bytes end before a field does.
    Truncated,
    /// A number is above 2^32 - 1.
    NumberTooLarge,
    /// The wavelet index isn't 1, 3 or 4.
    WaveletRefused(u32),
    /// The depth is above 4.
    DepthRefused,
    /// There is no slice, or there are more than 8192 across or down, or more than 2^20.
    SlicesRefused,
    /// The denominator is 0, or a slice would have less than a byte, or all slices more than 2^28.
    ShareRefused,
    /// The quantisation matrix is a preset one.
    DefaultMatrix,
}

/// The first fault, at a bit.
#[derive(Clone, Copy, Debug, PartialEq, Eq)]
pub struct TransformFault {
    pub bit: u64,
    pub reason: TransformReason,
}
