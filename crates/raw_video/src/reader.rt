// Pictures from a source.
ghost use Rattle.std.specs.Prelude.{◌≡◌, ◌≤◌, ◌+◌, ◌-◌, ◌*◌, ◌^◌, ℕ, Option, List, [], false, true, IfOk, OnErr, Err};
ghost use Rattle.std.specs.Io.KnownBytes.{Consumes};
ghost use Rattle.vc2_io.specs.Outside.{HasCause};
ghost use Rattle.slice_geometry.specs.Frames.{Frame, frame_of};
ghost use Rattle.picture_codec.specs.Samples.{PictureSamples};
ghost use Rattle.raw_video.specs.RawText.{is_wide};
ghost use Rattle.raw_video.specs.RawParse.{raw_length, sample_bounds};
ghost use Rattle.raw_video.specs.declared.reading.Halt.TheVariants.{Ended};
ghost use Rattle.raw_video.specs.Reading.{ReadsSamples, ReadsFront, RawCause, reader_after, FoundByte};

use crate::reading::{Halt, bytes_of, read_samples};
use crate::spelling::are_wide;
use picture_codec::Picture;
use slice_geometry::{Component, PictureShape};
use std::marker::Model;
use vc2_io::{Failed, INPUT_LIMIT, Source, fill};

/// What a call of `RawReader::next` found.
#[derive(Clone, Copy, Debug, PartialEq, Eq)]
pub enum RawStep {
    /// The next picture.
    Picture,
    /// The end of the input, behind whole pictures.
    End,
}

/// Why there is no next picture. Places are counted in bytes from the input's first.
#[derive(Clone, Copy, Debug, PartialEq, Eq)]
pub enum RawFault {
    /// The sample at this place is not below 2^d, where d is its component's depth.
    SampleTooLarge(u64),
    /// The input ends at this place, inside a picture.
    RawTruncated(u64),
    /// No whole picture stands before the place 2^40, and the input goes on past it.
    TooLong,
    /// A read failed.
    ReadFault,
}

/// Reads raw video: one picture of its shape after another.
#[derive(Drop)]
pub struct RawReader {
    shape: PictureShape,
    place: u64,
    refused: bool,
}

impl Model for RawReader {
    ghost use Rattle.std.specs.Prelude.{◌≤◌};
    ghost use Rattle.vc2_io.specs.declared.TheConstants.{INPUT_LIMIT};
    ghost use Rattle.raw_video.specs.Reading.{RawReaderSeen};

    ghost Value = { RawReaderSeen };

    ghost view = { λ r. record { shape = r.shape; place = r.place; refused = r.refused } };

    ghost invariant = { λ r. r.place ≤ INPUT_LIMIT };
}

// Whether the source has a byte more, which is taken.
fn has_byte<S: Source>(src: &mut S) -> Result<bool, Failed>
    ensures ok { IfOk result (FoundByte (S.rest src.old) (S.rest src.new)) }
    ensures err { OnErr result (Consumes (S.rest src.old) (S.rest src.new) []) }
    ensures cause { HasCause (S.faults src.old) (S.faults src.new) result }
{
    let mut byte = [0u8; 1];
    let came = fill(src, &mut byte)?;
    Ok(came == 1)
}

// No whole picture behind so many bytes: the source gave some bytes of it, and has ended there or reached the limit.
fn without_picture<S: Source>(src: &mut S, place: u64, came: u64) -> Result<RawStep, RawFault>
    requires inside { place + came ≤ INPUT_LIMIT }
    ensures front { (f : Frame) (rest : Option (List ℕ)) (cells : List ℕ) (samples : PictureSamples)
        → ReadsSamples (is_wide f) 0 (INPUT_LIMIT - place) (sample_bounds f) rest
        (S.rest src.old) cells (Err (Ended came))
        → ReadsFront f place rest (S.rest src.new) samples result }
    ensures cause { RawCause (S.faults src.old) (S.faults src.new) result }
{
    if place + came == INPUT_LIMIT {
        match has_byte(src) {
            Ok(true) => return Err(RawFault::TooLong),
            Ok(false) => {}
            Err(_) => return Err(RawFault::ReadFault),
        }
    }
    if came == 0 {
        Ok(RawStep::End)
    } else {
        Err(RawFault::RawTruncated(place + came))
    }
}

// What stands in front, behind so many bytes.
fn read_front<S: Source>(
    src: &mut S,
    place: u64,
    picture: &mut Picture,
) -> Result<RawStep, RawFault>
    requires { place ≤ INPUT_LIMIT }
    ensures same_shape { picture.new.shape ≡ picture.old.shape }
    ensures front { ReadsFront (frame_of picture.old.shape) place (S.rest src.old)
        (S.rest src.new) picture.new.samples result }
    ensures cause { RawCause (S.faults src.old) (S.faults src.new) result }
{
    match read_samples(src, picture, INPUT_LIMIT - place) {
        Ok(()) => {
            // The components have the sizes of the picture's shape.
            let _ = picture.samples(Component::Luma);
            let _ = picture.samples(Component::C1);
            let _ = picture.samples(Component::C2);
            Ok(RawStep::Picture)
        }
        Err(Halt::Ended(came)) => without_picture(src, place, came),
        Err(Halt::Large(k)) => {
            let wide = are_wide(picture.shape());
            Err(RawFault::SampleTooLarge(place + bytes_of(wide, k)))
        }
        Err(Halt::ReadFault) => Err(RawFault::ReadFault),
    }
}

// How many bytes a picture takes.
fn picture_length(shape: &PictureShape) -> u64
    ensures value { result ≡ raw_length (frame_of shape.now) }
    ensures few { result ≤ 2 ^ 27 }
{
    let luma = shape.luma.h * shape.luma.w;
    let colour = shape.colour.h * shape.colour.w;
    bytes_of(are_wide(shape), u64::from(luma) + 2 * u64::from(colour))
}

impl RawReader {
    /// A reader of pictures of this shape, before the first byte.
    pub fn new(shape: &PictureShape) -> RawReader
        ensures { result ≡ record { shape = shape.now; place = 0; refused = false } }
    {
        RawReader {
            shape: *shape,
            place: 0,
            refused: false,
        }
    }

    /// How many bytes the pictures take that were read so far, at most 2^40.
    pub fn place(&self) -> u64
        ensures value { result ≡ self.now.place }
        ensures most { result ≤ INPUT_LIMIT }
    {
        self.place
    }

    /// Reads the next picture, which has the reader's shape, and takes no memory. At most 4096 bytes are asked for at
    /// once, and none beyond the picture's end. Of a sample that is too large it is told before 4096 bytes more are taken.
    ///
    /// After a refusal the picture holds any samples, and only `place` may be called.
    pub fn next<S: Source>(
        &mut self,
        src: &mut S,
        picture: &mut Picture,
    ) -> Result<RawStep, RawFault>
        requires open { self.old.refused ≡ false }
        requires shape { picture.old.shape ≡ self.old.shape }
        ensures same_shape { picture.new.shape ≡ picture.old.shape }
        ensures front { ReadsFront (frame_of self.old.shape) self.old.place (S.rest src.old)
            (S.rest src.new) picture.new.samples result }
        ensures after { self.new ≡ reader_after self.old result }
        ensures cause { RawCause (S.faults src.old) (S.faults src.new) result }
    {
        let result = read_front(src, self.place, picture);
        match result {
            Ok(step) => match step {
                RawStep::Picture => self.place += picture_length(&self.shape),
                RawStep::End => {}
            },
            Err(_) => self.refused = true,
        }
        result
    }
}
