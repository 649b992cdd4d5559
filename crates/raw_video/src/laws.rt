//! Laws of raw video. Each function does nothing; its contract is the law.

ghost use Rattle.vc2_io.specs.declared.TheConstants.{INPUT_LIMIT};
ghost use Rattle.std.specs.Prelude.{◌≡◌, ℕ, ◌+◌, ◌<◌, ◌≤◌, List, ◌++◌, length};
ghost use Rattle.std.specs.List.{AllByRecursion};
ghost use Rattle.slice_geometry.specs.Frames.{Frame};
ghost use Rattle.picture_codec.specs.Samples.{PictureSamples};
ghost use Rattle.raw_video.specs.RawText.{raw_text};
ghost use Rattle.raw_video.specs.RawParse.{raw_length, IsOfFrame, Shown, Over, raw_front, raw_texts, raw_parse};

/// What `write_picture` writes is read back: a picture in front of any bytes, and any number of pictures, of samples of
/// at most 16 bits.
pub fn written_is_read_back()
    ensures length { (f : Frame) (s : PictureSamples) → IsOfFrame f s
        → length (raw_text f s) ≡ raw_length f }
    ensures picture { (f : Frame) (place : ℕ) (s : PictureSamples) (more : List ℕ)
        → f.luma_depth ≤ 16 → f.colour_depth ≤ 16
        → IsOfFrame f s → place + raw_length f ≤ INPUT_LIMIT
        → raw_front f place (raw_text f s ++ more) ≡ Shown s }
    ensures pictures { (f : Frame) (pictures : List PictureSamples) → f.luma_depth ≤ 16
        → f.colour_depth ≤ 16 → 0 < raw_length f
        → AllByRecursion (IsOfFrame f) pictures → length (raw_texts f pictures) ≤ INPUT_LIMIT
        → raw_parse f (raw_texts f pictures) ≡ record { pictures = pictures; ending = Over } }
{}

/// A picture that is read has its components' sizes, and samples of their bits.
pub fn read_is_of_its_shape()
    ensures { (f : Frame) (place : ℕ) (bytes : List ℕ) (s : PictureSamples)
        → raw_front f place bytes ≡ Shown s → IsOfFrame f s }
{}
