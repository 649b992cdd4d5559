//! What takes the rows of subbands that analysis finishes.

ghost use Rattle.std.specs.Prelude.{ℕ, ◌<◌, ◌≤◌, length};
ghost use Rattle.planes.specs.Raster.{height};
ghost use Rattle.planes.specs.Subbands.{BandStack, BandExists, band_of};
ghost use Rattle.planes.specs.Valued.{valued};
ghost use Rattle.lifting.specs.RowSinks.{IsBandRowPut};

use planes::Number;

/// What takes the rows of a component's subbands, in any order.
pub trait RowSink<T: Number> {
    /// The subbands, as contracts see them.
    ghost stack: { Self → BandStack };

    /// What it asks of itself, to take rows.
    ghost is_open: { Self → Type 0 };

    /// What rows leave of it as it was, besides the sizes of the subbands.
    ghost stays: { Self → Self → Type 0 };

    /// Takes row y of a subband: the first numbers of `row`, as many as the subband has columns.
    fn put_row(&mut self, level: u32, orient: u32, y: u32, row: &[T])
        requires open { is_open self.old }
        requires exists { BandExists (stack self.old).depth level orient }
        requires inside { y < height (band_of (stack self.old) level orient) }
        requires wide { (band_of (stack self.old) level orient).w ≤ length row.now }
        ensures open { is_open self.new }
        ensures stays { stays self.old self.new }
        ensures put { IsBandRowPut level orient y (valued T.value T.none row.now)
            (stack self.old) (stack self.new) };

    /// A sink that stays says so.
    ghost untouched: { (s : Self) → stays s s };

    /// Rows one after another leave what each leaves.
    ghost in_turn: { (a b c : Self) → stays a b → stays b c → stays a c };
}
