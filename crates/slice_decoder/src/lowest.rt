//! The lowest subbands of the three components, restored in 32 bits, whatever the others stand in.

ghost use Rattle.std.specs.Prelude.{◌≡◌, ◌^◌, ◌≤◌, true, false, pos};
ghost use Rattle.planes.specs.Bounded.{AreBandsWithin};
ghost use Rattle.planes.specs.Raster.{height};
ghost use Rattle.planes.specs.Subbands.{BandStack};
ghost use Rattle.dc_prediction.specs.Restoring.{RestoresRect, IsStopped};
ghost use Rattle.slice_store.specs.ShortBands.{short_stack, IsShortSound};
ghost use Rattle.slice_geometry.specs.declared.Size.{Size};
ghost use Rattle.slice_geometry.specs.Slicing.{Slicing};
ghost use Rattle.slice_geometry.specs.SliceOrder.{numbered};
ghost use Rattle.slice_decoder.specs.Narrow.{trio_by, LowestKeeps, AreRestored, OneStops, AllKeepLowest, LieInLowest};
ghost use Rattle.slice_decoder.specs.Short.{IsCut};

use dc_prediction::restore_narrow;
use planes::{NarrowBands, Rect};
use slice_store::ShortBands;

/// The subbands of a component, of which the lowest stands in rows of 32 bits.
pub trait LowestRows {
    /// The same bands, as all contracts see them.
    ghost seen: { Self → BandStack };

    /// What restoring asks of them.
    ghost is_sound: { Self → Type 0 };

    /// What restoring says of the bands before and after.
    ghost stays: { Self → Self → Type 0 };

    /// Restores the residuals of a rectangle in the lowest subband, up to a value that would pass 2^18.
    fn restore(&mut self, rect: Rect) -> bool
        requires x_inside { rect.x1 ≤ (numbered (seen self.old) 0).w }
        requires y_inside { rect.y1 ≤ height (numbered (seen self.old) 0) }
        requires sound { is_sound self.old }
        ensures restored { result ≡ true
            → RestoresRect rect (numbered (seen self.old) 0) (numbered (seen self.new) 0) }
        ensures stopped { result ≡ false
            → IsStopped rect (numbered (seen self.old) 0) (numbered (seen self.new) 0) }
        ensures keeps { LowestKeeps rect (seen self.old) (seen self.new) }
        ensures sound { stays self.old self.new };

    /// It says the same of bands that stay.
    ghost untouched: { (b : Self) → is_sound b → stays b b };
}

impl LowestRows for NarrowBands {
    ghost seen = { λ b. b };

    ghost is_sound = { λ b. AreBandsWithin (pos (2 ^ 18)) b };

    ghost stays = { λ old new. AreBandsWithin (pos (2 ^ 18)) new };

    fn restore(&mut self, rect: Rect) -> bool {
        restore_narrow(self.band_mut(0, 0), rect)
    }

    ghost untouched = { λ b sound. sound };
}

impl LowestRows for ShortBands {
    ghost seen = { λ b. short_stack b };

    ghost is_sound = { λ b. IsShortSound b };

    ghost stays = { λ old new. (s : Slicing) (size : Size) → IsCut s size old → IsCut s size new };

    fn restore(&mut self, rect: Rect) -> bool {
        restore_narrow(&mut self.lowest, rect)
    }

    ghost untouched = { λ b _ s size cut. cut };
}

/// The same of all three components.
pub fn restore_all<B: LowestRows>(
    luma: &mut B,
    c1: &mut B,
    c2: &mut B,
    luma_rect: Rect,
    colour_rect: Rect,
) -> bool
    requires inside { LieInLowest luma_rect colour_rect (trio_by B.seen luma.old c1.old c2.old) }
    requires luma_sound { B.is_sound luma.old }
    requires c1_sound { B.is_sound c1.old }
    requires c2_sound { B.is_sound c2.old }
    ensures restored { result ≡ true
        → AreRestored luma_rect colour_rect (trio_by B.seen luma.old c1.old c2.old)
        (trio_by B.seen luma.new c1.new c2.new) }
    ensures stopped { result ≡ false
        → OneStops luma_rect colour_rect (trio_by B.seen luma.old c1.old c2.old)
        (trio_by B.seen luma.new c1.new c2.new) }
    ensures keeps { AllKeepLowest luma_rect colour_rect (trio_by B.seen luma.old c1.old c2.old)
        (trio_by B.seen luma.new c1.new c2.new) }
    ensures luma_sound { B.stays luma.old luma.new }
    ensures c1_sound { B.stays c1.old c1.new }
    ensures c2_sound { B.stays c2.old c2.new }
{
    luma.restore(luma_rect) && c1.restore(colour_rect) && c2.restore(colour_rect)
}
