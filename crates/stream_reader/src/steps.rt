//! What a unit that was found leaves.

ghost use Rattle.vc2_io.specs.declared.TheConstants.{INPUT_LIMIT};
ghost use Rattle.std.specs.Prelude.{◌≡◌, ◌+◌, ◌≤◌, ◌<◌, List, ℕ, length, false, None, Some, IfSome};
ghost use Rattle.slice_geometry.specs.UnitLengths.{IsUnitAllowed, shape_length};
ghost use Rattle.slice_geometry.specs.Frames.{frame_of};
ghost use Rattle.picture_codec.specs.Samples.{picture_of};
ghost use Rattle.picture_codec.specs.Decoding.{HasTaken, synthesised_picture, wanted_of};
ghost use Rattle.stream_rows.specs.Units.{Past, DataUnit};
ghost use Rattle.stream_reader.specs.Turns.{IsFound, HasAllSlices, shape_of};
ghost use Rattle.stream_reader.specs.Reader.{Steps, header_behind};
ghost use Rattle.stream_reader.specs.StreamTable.{KeepsDecoder};

use crate::earlier::Earlier;
use crate::parts::Found;
use crate::stop::Item;
use picture_codec::PictureDecoder;
use sequence_header::SequenceHeader;
use slice_geometry::UnitShape;

/// The shape of a unit of so many bytes.
pub(crate) fn shape_of(found: &Found, start: u64, size: u32) -> UnitShape
    ensures shape { (z : Past) (unit : DataUnit) (bytes : List ℕ) → z.place ≡ start
        → length bytes ≡ size → IsFound z found.now unit bytes → result ≡ shape_of z unit bytes }
    ensures size { (z : Past) (unit : DataUnit) (bytes : List ℕ) → length bytes ≡ size
        → IsFound z found.now unit bytes → shape_length result ≡ size }
    ensures start { result.start ≡ start }
    ensures allowed { IsUnitAllowed result }
{
    match found {
        Found::Picture(shown) => UnitShape {
            start,
            head: shown.head,
            slices: shown.layout.count(),
            a: shown.layout.a(),
            b: shown.layout.b(),
        },
        _ => UnitShape {
            start,
            head: u64::from(size),
            slices: 0,
            a: 1,
            b: 1,
        },
    }
}

/// Goes on behind a unit of so many bytes; gives its item, and the decoder that took its picture's slices.
pub(crate) fn step(earlier: &mut Earlier, found: Found, size: u32) -> (Item, Option<PictureDecoder>)
    requires some { 0 < size }
    requires most { earlier.old.place + size ≤ INPUT_LIMIT }
    requires found { (unit : DataUnit) × (bytes : List ℕ) × (length bytes ≡ size)
        × IsFound earlier.old found unit bytes }
    ensures { (unit : DataUnit) (bytes : List ℕ) → length bytes ≡ size
        → IsFound earlier.old found unit bytes
        → Steps earlier.old earlier.new unit bytes result.0 result.1 }
{
    match found {
        Found::Sequence(first) => {
            earlier.step_first(first, size);
            (Item::Sequence, None)
        }
        Found::Repeated => {
            earlier.step(size);
            (Item::Repeated, None)
        }
        Found::Picture(shown) => {
            earlier.step_picture(shown.number, size);
            (Item::Picture(shown.number), Some(shown.decoder))
        }
        Found::Skipped => {
            earlier.step(size);
            (Item::Skipped, None)
        }
        Found::End => {
            earlier.step_end(size);
            (Item::SequenceEnd, None)
        }
    }
}

/// The header that was read last, behind a unit.
pub(crate) fn header_behind(found: &Found, before: Option<SequenceHeader>) -> Option<SequenceHeader>
    ensures { (z : Past) (unit : DataUnit) (bytes : List ℕ) → IsFound z found.now unit bytes
        → result ≡ header_behind unit before }
{
    match found {
        Found::Sequence(first) => Some(*first.header()),
        _ => before,
    }
}

// Has a decoder that took all slices make its picture.
fn finish(decoder: &mut PictureDecoder)
    requires unrefused { decoder.old.refused ≡ false }
    requires whole { wanted_of decoder.old ≡ None }
    ensures state { decoder.new
        ≡ record decoder.old { picture = Some (synthesised_picture decoder.old) } }
    ensures unit { (slices : List (List ℕ)) → HasTaken slices decoder.old
        → synthesised_picture decoder.old
        ≡ picture_of (frame_of decoder.old.shape) decoder.old.params slices }
{
    // The picture that it lends isn't shown here.
    let _ = decoder.finish();
}

/// Keeps the decoder that took a picture's slices, which first makes the picture where pictures are asked for.
pub(crate) fn keep(
    kept: &mut Option<PictureDecoder>,
    took: Option<PictureDecoder>,
    makes_pictures: bool,
)
    requires { IfSome took HasAllSlices }
    ensures { KeepsDecoder makes_pictures took kept.old kept.new }
{
    if let Some(mut decoder) = took {
        if makes_pictures {
            finish(&mut decoder);
        }
        drop(kept.replace(decoder));
    }
}
