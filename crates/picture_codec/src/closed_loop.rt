//! Laws that join the writer of slices with their reader. Each function does nothing; its contract is the law.

ghost use Rattle.picture_codec.specs.Written.{WrittenIsRead, WrittenIsRestored};

/// A slice that is written is read back: its index, the need of its luma list as the length of its luma block, and both
/// lists.
pub fn written_is_read()
    ensures { WrittenIsRead }
{}

/// A decoder of slices that were written, each at its index, has in the lowest subbands the values that the encoder
/// kept, and elsewhere the quantised coefficients, dequantised. At quantiser 0 it has the coefficients themselves.
pub fn written_is_restored()
    ensures { WrittenIsRestored }
{}
