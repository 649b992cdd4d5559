//! What an encoder writes is a stream.

ghost use Rattle.std.specs.Prelude.{◌≡◌, ◌≤◌, ◌<◌, ◌^◌, ◌%◌, ◌++◌, List, ℕ, length, map};
ghost use Rattle.std.specs.List.{AllByRecursion};
ghost use Rattle.picture_codec.specs.Samples.{picture_of};
ghost use Rattle.picture_codec.specs.Lossless.{LosslessIsGivenBack};
ghost use Rattle.stream_rows.specs.Streams.{limit, frame_under};
ghost use Rattle.stream_writer.specs.StreamPictures.{pictures_of};
ghost use Rattle.stream_writer.specs.EncodedStream.{Settings, header_unit, encoded, units_of, AreLawful, IsSliced, IsStreamOf};
ghost use Rattle.stream_writer.specs.Writer.{writer_begun, texts_from, HaveRoomInTurn};
ghost use Rattle.stream_writer.specs.WrittenSlices.{WrittenAreSliced, ChosenAreSliced};
ghost use Rattle.stream_writer.specs.EncodedPictures.{PicturesAreAStream};
ghost use Rattle.stream_writer.specs.WriterRuns.{RunsWriteStreams};
ghost use Rattle.stream_writer.specs.PictureLists.{PicturesHoldTheirLists};
ghost use Rattle.transform_params.specs.ParameterFields.{AreLawfulParams};

/// What is written under lawful settings, of pictures whose slices a reader takes, is a stream of exactly these pictures:
/// where pictures are fields, of an even number of them, and within 2^40 bytes.
pub fn encoded_is_a_stream()
    ensures { (s : Settings) (pictures : List (List (List ℕ))) → AreLawful s
        → AllByRecursion (IsSliced s.parts s.params) pictures
        → (s.parts.coding ≡ 1 → length pictures % 2 ≡ 0) → length (encoded s pictures) ≤ limit
        → IsStreamOf (encoded s pictures) (units_of s pictures) }
{}

/// The pictures of such a stream are those that its slices make, in order, each of the header's size.
pub fn encoded_pictures_are_shown()
    ensures { (s : Settings) (pictures : List (List (List ℕ)))
        → pictures_of (units_of s pictures)
        ≡ map (λ slices. (frame_under s.parts, picture_of (frame_under s.parts) s.params slices))
        pictures }
{}

/// A start, a picture call for each picture, and the end write the stream of these pictures.
pub fn calls_write_the_stream()
    ensures { (s : Settings) (pictures : List (List (List ℕ))) → AreLawfulParams s.params
        → s.first < 2 ^ 32
        → header_unit s.parts ++ texts_from (writer_begun s) pictures ≡ encoded s pictures }
{}

/// So what calls write that all answer Ok is a stream of exactly these pictures: its length needs no further test.
pub fn calls_write_a_stream()
    ensures { (s : Settings) (pictures : List (List (List ℕ))) → AreLawful s
        → AllByRecursion (IsSliced s.parts s.params) pictures
        → (s.parts.coding ≡ 1 → length pictures % 2 ≡ 0) → HaveRoomInTurn (writer_begun s) pictures
        → IsStreamOf (header_unit s.parts ++ texts_from (writer_begun s) pictures)
        (units_of s pictures) }
{}

/// The slices that an encoder writes, each in its share of bytes at its index, are such slices, and a reader finds the
/// encoder's lists in them.
pub fn written_slices_are_taken()
    ensures { WrittenAreSliced }
{}

/// So are those that it chooses for a picture, whatever the picture is, where the matrix is not too steep.
pub fn chosen_slices_are_taken()
    ensures { ChosenAreSliced }
{}

/// So what an encoder writes of pictures of the header's shape is a stream, whatever their samples are, where the matrix
/// is not too steep.
pub fn encoded_pictures_are_a_stream()
    ensures { PicturesAreAStream }
{}

/// So a start, a picture call for each of these pictures and the end, where each of them answers Ok, write a stream, and its
/// pictures are those that the slices of these make: where pictures are fields, of an even number of them.
pub fn calls_write_their_pictures()
    ensures { RunsWriteStreams }
{}

/// And a reader finds in the slices of each such picture the indices and the lists that the encoder chose.
pub fn encoded_pictures_hold_their_lists()
    ensures { PicturesHoldTheirLists }
{}

/// Where every quantiser of a picture is 0, each sample that is decoded of its slices is the one that was there.
pub fn lossless_pictures_are_given_back()
    ensures { LosslessIsGivenBack }
{}
