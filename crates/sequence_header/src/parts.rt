//! What a sequence header holds.

/// A field whose default is refused: its flag must be 1.
#[derive(Clone, Copy, Debug, PartialEq, Eq)]
pub enum FieldName {
    Size,
    Sampling,
    Rate,
    Signal,
}

/// Why a sequence header is refused.
#[derive(Clone, Copy, Debug, PartialEq, Eq)]
pub enum HeaderReason {
    /// The bits end before the field does.
    Truncated,
    /// A number above `u32::MAX`.
    NumberTooLarge,
    /// A major version other than 1 and 2.
    VersionRefused,
    /// A profile other than 0.
    NotLowDelay,
    /// A base video format other than 0.
    PresetFormat,
    /// A flag that asks for the default of a field that has to be carried.
    DefaultTaken(FieldName),
    /// A width or height that isn't 1 to 8192, or more than 2^24 samples.
    SizeRefused,
    /// A sampling index above 2.
    SamplingUnknown,
    /// A size that the sampling or the fields can't divide.
    SizeNotDivisible,
    /// A source sampling above 1.
    ScanUnknown,
    /// A frame rate index above 8, or a numerator or denominator of 0.
    RateRefused,
    /// A signal range index above 4, or an excursion that isn't 1 to 65535.
    SignalRefused,
    /// A picture coding mode above 1.
    CodingModeUnknown,
}

/// The first fault of a header: its bit, counted from the header's first bit, and its reason.
#[derive(Clone, Copy, Debug, PartialEq, Eq)]
pub struct HeaderFault {
    pub bit: u64,
    pub reason: HeaderReason,
}

/// The versions and the level (SMPTE ST 2042-1:2017, parse_parameters).
#[derive(Clone, Copy, Debug, PartialEq, Eq)]
pub struct Version {
    pub major: u32,
    pub minor: u32,
    pub level: u32,
}

/// A frame rate by its index in the standard's table, or as pictures in so many seconds.
#[derive(Clone, Copy, Debug, PartialEq, Eq)]
pub enum RateField {
    Index(u32),
    /// Numerator and denominator.
    Pair(u32, u32),
}

/// A pixel aspect ratio. An index is at least 1.
#[derive(Clone, Copy, Debug, PartialEq, Eq)]
pub enum AspectField {
    Default,
    Index(u32),
    /// Numerator and denominator.
    Pair(u32, u32),
}

/// The part of a frame that is meant to be seen, in samples.
#[derive(Clone, Copy, Debug, PartialEq, Eq)]
pub struct CleanArea {
    pub width: u32,
    pub height: u32,
    pub left: u32,
    pub top: u32,
}

/// The values of samples: where black or no colour lies, and how far they go from there.
#[derive(Clone, Copy, Debug, PartialEq, Eq)]
pub struct SignalRange {
    pub luma_offset: u32,
    pub luma_excursion: u32,
    pub colour_offset: u32,
    pub colour_excursion: u32,
}

/// A signal range by its index in the standard's table, or by its numbers.
#[derive(Clone, Copy, Debug, PartialEq, Eq)]
pub enum SignalField {
    Index(u32),
    Custom(SignalRange),
}

/// A colour specification. An index is at least 1.
#[derive(Clone, Copy, Debug, PartialEq, Eq)]
pub enum ColourField {
    Default,
    Index(u32),
    /// Each by its index, or by default.
    Custom {
        primaries: Option<u32>,
        matrix: Option<u32>,
        transfer: Option<u32>,
    },
}

/// The fields of a sequence header, in the order in which they are coded.
#[derive(Clone, Copy, Debug, PartialEq, Eq)]
pub struct HeaderParts {
    pub major: u32,
    pub minor: u32,
    pub level: u32,
    /// Of a frame, in luma samples.
    pub width: u32,
    /// Of a frame, in luma samples.
    pub height: u32,
    /// 0 is 4:4:4, 1 is 4:2:2, 2 is 4:2:0.
    pub sampling: u32,
    /// 0 is progressive, 1 is interlaced.
    pub scan: Option<u32>,
    pub rate: RateField,
    pub aspect: AspectField,
    pub clean: Option<CleanArea>,
    pub signal: SignalField,
    pub colour: ColourField,
    /// 0 if pictures are frames, 1 if they are fields.
    pub coding: u32,
}
