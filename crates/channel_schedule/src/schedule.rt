// A rate, a schedule, and how it comes out.
/// Bytes in slots: `num` bytes arrive in `den` slots, and both are at least 1.
#[derive(Clone, Copy, Debug, PartialEq, Eq)]
pub struct Rate {
    pub num: u32,
    pub den: u32,
}

/// How a stream is taken from the channel: the first slice after `delay` slots, from a buffer of `size` bytes, with `idle`
/// slots behind each picture in which no slice is taken. The delay is at most 2^72.
#[derive(Clone, Copy, Debug, PartialEq, Eq)]
pub struct Schedule {
    pub rate: Rate,
    pub delay: u128,
    pub size: u64,
    pub idle: u32,
}

/// How a schedule comes out.
#[derive(Clone, Copy, Debug, PartialEq, Eq)]
pub enum Outcome {
    /// Each slice is there when it is taken, and the buffer holds all that has arrived.
    Runs,
    /// In this slot a slice is taken that has not arrived: `have` bytes have, and `need` are wanted.
    Late { slot: u128, have: u64, need: u64 },
    /// In this slot more bytes are held than there is room for.
    Overfull { slot: u128, fill: u64, size: u64 },
}
