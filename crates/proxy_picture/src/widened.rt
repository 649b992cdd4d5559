//! Bands of 16 bits, widened.

ghost use Rattle.std.specs.Prelude.{◌≡◌, ◌*◌, ◌^◌, ℕ, length, pos, true, IfOk};
ghost use Rattle.planes.specs.Bounded.{AreBandsWithin};
ghost use Rattle.slice_geometry.specs.Shape.{IsSize};
ghost use Rattle.slice_geometry.specs.Geometry.{padded_length};
ghost use Rattle.slice_store.specs.Gathered.{ShowTheSame};
ghost use Rattle.slice_store.specs.ShortBands.{short_stack, IsShortSound};
ghost use Rattle.proxy_picture.specs.Making.{AreWidenedRowless, AreForWidening};

use planes::{LateBands, NarrowBands, NoMemory};
use slice_geometry::{Layout, Size};
use slice_store::ShortBands;
use std::alloc::Global;

// The most numbers of a row of bands of 16 bits.
const MOST_NUMBERS: usize = 8208;

// A row of as many zeros.
fn zero_row(alloc: Global) -> Result<Vec<i16>, NoMemory>
    ensures { IfOk result (λ row. length row.items ≡ 8208) }
{
    Ok(Vec::from_elem(alloc, 0i16, MOST_NUMBERS)?)
}

/// The bands of 32 bits that those of 16 are widened into, and a row for that. The memory of the bands isn't touched before
/// they are made.
#[derive(Drop)]
pub(crate) struct WidenedBands {
    pub(crate) bands: NarrowBands,
    pub(crate) late: LateBands<i32>,
    pub(crate) row: Vec<i16>,
    pub(crate) is_made: bool,
}

impl WidenedBands {
    pub(crate) fn new(alloc: Global, layout: &Layout, size: Size) -> Result<WidenedBands, NoMemory>
        requires { IsSize size.w size.h }
        ensures { IfOk result (AreForWidening layout.now.depth
            (padded_length layout.now.depth size.w) (padded_length layout.now.depth size.h)) }
    {
        let depth = layout.depth();
        let padded = layout.padded_size(size);
        let row = zero_row(alloc)?;
        let late = LateBands::new(alloc, depth, padded.w, padded.h)?;
        let bands = NarrowBands::new(alloc, depth, 0, 0)?;
        Ok(WidenedBands {
            bands,
            late,
            row,
            is_made: false,
        })
    }

    // Sees to it that the bands are made.
    fn make(&mut self)
        requires { AreWidenedRowless self.old }
        ensures { (depth w h : ℕ) → AreForWidening depth w h self.old
            → AreForWidening depth w h self.new × (self.new.is_made ≡ true) }
    {
        if self.is_made {
            return;
        }
        self.late.make(&mut self.bands);
        self.is_made = true;
    }

    /// Gives them the numbers of bands of 16 bits.
    pub(crate) fn take(&mut self, short: &ShortBands)
        requires sound { IsShortSound short.now }
        requires sizes { AreForWidening short.now.slices.slicing.depth
            (padded_length short.now.slices.slicing.depth short.now.slices.size.w)
            (padded_length short.now.slices.slicing.depth short.now.slices.size.h) self.old }
        ensures same { ShowTheSame (short_stack short.now) self.new.bands }
        ensures within { AreBandsWithin (pos (2 ^ 18)) self.new.bands }
        ensures made { self.new.is_made ≡ true }
        ensures row { length self.new.row.items ≡ 8208 }
    {
        // The rules of slices: their rows are at most as long as the row.
        let _ = short.slices.numbers();
        self.make();
        short.widen(&mut self.bands, self.row.as_mut_slice());
    }
}
