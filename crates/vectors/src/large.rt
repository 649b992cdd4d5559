// Pictures of 1920x1080 in 4:2:2 and 10 bits, by `trial` and by `encode` of the same video.
use crate::runs::{Ends, Sinks, WHOLE, run_bytes};
use picture_codec::Picture;
use raw_video::write_picture;
use slice_geometry::{PictureShape, Size};
use std::alloc::Global;
use std::process::Abort;
use std::test::Fail;
use trial_video::TrialVideo;
use vc2_cli::Status;
use vc2_io::MemSink;

const ENCODE: &str =
    "encode size=1920x1080 sampling=422 fps=25/1 signal=3 wavelet=legall depth=3 slices=120x135 bytes=80/1 \
    matrix=4,2,2,0,4,4,2,5,5,3";

// The same operands, and how many pictures.
const TRIAL: &str =
    "trial size=1920x1080 sampling=422 fps=25/1 signal=3 wavelet=legall depth=3 slices=120x135 bytes=80/1 \
    matrix=4,2,2,0,4,4,2,5,5,3 seed=1 pictures=1";

const TRIAL_OF_TWO: &str =
    "trial size=1920x1080 sampling=422 fps=25/1 signal=3 wavelet=legall depth=3 slices=120x135 bytes=80/1 \
    matrix=4,2,2,0,4,4,2,5,5,3 seed=1 pictures=2";

const SHAPE: PictureShape = PictureShape {
    luma: Size { w: 1920, h: 1080 },
    colour: Size { w: 960, h: 1080 },
    luma_depth: 10,
    colour_depth: 10,
};

// The bytes of a raw picture.
const RAW_BYTES: usize = 8294400;

const SCHEDULE: &[u8] = b"rate=1296029/16200 delay=2 buffer=160\n";

// What the first lines of `trial` say.
const ONE_PICTURE: &[u8] = b"trial seed 1 pictures 1\n\
    stream bytes 1296064 slices 16200\n\
    rate=1296029/16200 delay=2 buffer=160\n\
    worst ";

const TWO_PICTURES: &[u8] = b"trial seed 1 pictures 2\n\
    stream bytes 2592093 slices 32400\n\
    rate=1296029/16200 delay=2 buffer=160\n\
    worst ";

// Asserts how the lines of `trial` begin.
fn check_trial(rt: &impl Abort, alloc: Global, words: &str, lines: &[u8]) -> Result<(), Fail> {
    let mut sinks = Sinks::new(alloc, &WHOLE)?;
    let ends = Ends { read: 0, ..WHOLE };
    let status = run_bytes(alloc, words, b"", &ends, &mut sinks)?;
    assert_eq!(rt;
        (status, sinks.out.bytes().starts_with(lines)),
        (Status::Done, true),
        "{words}"
    );
    Ok(())
}

#[test]
fn trials_of_large_pictures(rt: HostRuntime) -> Result<(), Fail> {
    check_trial(&rt, rt.alloc(), TRIAL, ONE_PICTURE)?;
    check_trial(&rt, rt.alloc(), TRIAL_OF_TWO, TWO_PICTURES)
}

// Writes the first picture of the seed that those trials have, and its second.
fn write_pictures(alloc: Global, second: bool, raw: &mut MemSink) -> Result<(), Fail> {
    let shape = SHAPE;
    let mut picture = Picture::new(alloc, &shape)?;
    let mut video = TrialVideo::new(&shape, 1);
    video.next(&mut picture);
    write_picture(raw, &picture)?;
    if second {
        video.next(&mut picture);
        write_picture(raw, &picture)?;
    }
    Ok(())
}

// Asserts the note of `encode` over raw video, and the length of its stream.
fn check_encoded(
    rt: &impl Abort,
    alloc: Global,
    raw: &[u8],
    stream_bytes: usize,
) -> Result<(), Fail> {
    let mut sinks = Sinks::with_room(alloc, stream_bytes, &WHOLE)?;
    let status = run_bytes(alloc, ENCODE, raw, &WHOLE, &mut sinks)?;
    assert_eq!(rt;
        (status, sinks.out.bytes().len(), sinks.note.bytes()),
        (Status::Done, stream_bytes, SCHEDULE)
    );
    Ok(())
}

fn check_pictures(
    rt: &impl Abort,
    alloc: Global,
    second: bool,
    stream_bytes: usize,
) -> Result<(), Fail> {
    let mut raw = Sinks::with_room(alloc, 2 * RAW_BYTES, &WHOLE)?;
    write_pictures(alloc, second, &mut raw.out)?;
    check_encoded(rt, alloc, raw.out.bytes(), stream_bytes)
}

#[test]
fn large_pictures_are_encoded(rt: HostRuntime) -> Result<(), Fail> {
    check_pictures(&rt, rt.alloc(), false, 1296064)?;
    check_pictures(&rt, rt.alloc(), true, 2592093)
}

// Asserts the same of so many zeros.
fn check_zeros(
    rt: &impl Abort,
    alloc: Global,
    count: usize,
    stream_bytes: usize,
) -> Result<(), Fail> {
    let zeros = vec![in alloc; 0; count]?;
    check_encoded(rt, alloc, zeros.as_slice(), stream_bytes)
}

#[test]
fn large_pictures_of_zeros_are_encoded(rt: HostRuntime) -> Result<(), Fail> {
    check_zeros(&rt, rt.alloc(), RAW_BYTES, 1296064)?;
    check_zeros(&rt, rt.alloc(), 2 * RAW_BYTES, 2592093)
}
