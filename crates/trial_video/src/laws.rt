//! A law of the definitions. Its function does nothing; the contract is the law.

ghost use Rattle.std.specs.Prelude.{ℕ};
ghost use Rattle.slice_geometry.specs.Frames.{Frame};
ghost use Rattle.raw_video.specs.RawParse.{IsOfFrame};
ghost use Rattle.trial_video.specs.Video.{video_picture};

/// Each picture of the video is one of its frame: its components have their sizes, and each sample its bits.
pub fn pictures_are_of_their_frame()
    ensures { (f : Frame) (seed p : ℕ) → IsOfFrame f (video_picture f seed p) }
{}
