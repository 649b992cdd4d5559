//! The subbands of a component as analysis finds them, slice by slice.

ghost use Rattle.std.specs.Prelude.{pos};
ghost use Rattle.std.proofs.Common.{refl, ◌∙◌};
ghost use Rattle.slice_store.specs.Stack.{stack_of};
ghost use Rattle.picture_codec.specs.EncoderInside.{HasAllRows, LiesTheSame};

use lifting::RowSink;
use slice_store::SliceStore;

/// The subbands of a component in 32 bits, with room for all rows of its slices.
#[derive(Drop)]
pub(crate) struct StoredBands {
    pub(crate) store: SliceStore<i32>,
}

impl RowSink<i32> for StoredBands {
    ghost stack = { λ b. stack_of (λ v. v) (pos 0) b.store };

    ghost is_open = { λ b. HasAllRows b.store };

    ghost stays = { λ a b. LiesTheSame a.store b.store };

    fn put_row(&mut self, level: u32, orient: u32, y: u32, row: &[i32]) {
        // The sizes of the bands.
        self.store.shows();
        self.store.put_row(level, orient, y, row);
    }

    ghost untouched = { λ b. record { slicing = refl; size = refl; strips = refl } };

    ghost in_turn = { λ a b c first second. record {
      slicing = second.slicing ∙ first.slicing;
      size = second.size ∙ first.size;
      strips = second.strips ∙ first.strips;
    } };
}
