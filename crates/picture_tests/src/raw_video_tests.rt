//! Raw video that is read and written again, worked out by hand.

ghost use Rattle.std.specs.Prelude.{◌≡◌, false};

use crate::checks::assert_same;
use picture_codec::Picture;
use raw_video::{RawReader, RawStep, write_picture};
use slice_geometry::{Component, PictureShape, Size};
use std::alloc::{AllocError, Global};
use std::process::Abort;
use std::test::Fail;
use vc2_io::{Failed, MemSink, MemSource};

/// Tells the samples of a component, those behind one another that are the same as one and their count.
fn tell_samples(text: &mut String, samples: &[u16]) -> Result<(), AllocError> {
    write!(text, " :")?;
    for run in samples.chunk_by(|a, b| a == b) {
        let first = run.first().copied().unwrap_or(0);
        write!(text, " {first}")?;
        if run.len() > 1 {
            write!(text, "*{}", run.len())?;
        }
    }
    Ok(())
}

/// Tells the samples of a picture.
fn tell_picture(text: &mut String, picture: &Picture) -> Result<(), AllocError> {
    for c in [Component::Luma, Component::C1, Component::C2] {
        tell_samples(text, picture.samples(c))?;
    }
    Ok(())
}

/// Tells what the calls answer one after another, with the samples of each picture, which is written to a sink.
fn tell_steps(
    rt: &impl Abort,
    reader: &mut RawReader,
    picture: &mut Picture,
    src: &mut MemSource,
    sink: &mut MemSink,
    text: &mut String,
) -> Result<(), AllocError>
    requires open { reader.old.refused ≡ false }
    requires shape { picture.old.shape ≡ reader.old.shape }
{
    for _ in 0..4 {
        let step = reader.next(src, picture);
        write!(text, " {step:?}")?;
        match step {
            Ok(step) => match step {
                RawStep::Picture => {}
                RawStep::End => break,
            },
            Err(_) => break,
        }
        tell_picture(text, picture)?;
        assert_same(rt, write_picture(sink, picture), Ok(()));
    }
    Ok(())
}

/// What is told of a source, and the place behind it.
fn told(
    rt: &impl Abort,
    alloc: Global,
    shape: &PictureShape,
    src: &mut MemSource,
    sink: &mut MemSink,
) -> Result<String, Fail> {
    let mut text = String::new(alloc);
    let mut reader = RawReader::new(shape);
    let mut picture = Picture::new(alloc, shape).expect(rt, "memory");
    let done = tell_steps(rt, &mut reader, &mut picture, src, sink, &mut text);
    drop(picture);
    done?;
    write!(text, " {}", reader.place())?;
    assert_same(rt, sink.bytes().len() as u64, reader.place());
    Ok(text)
}

/// No call of a sink fails but this.
fn only(call: u64) -> [u64; 4] {
    [call, u64::MAX, u64::MAX, u64::MAX]
}

/// Asserts what is told, and that what is written is the front of the bytes.
fn expect_told(
    rt: &impl Abort,
    alloc: Global,
    shape: &PictureShape,
    src: &mut MemSource,
    bytes: &[u8],
    want: &str,
) -> Result<(), Fail> {
    let mut sink = MemSink::new(alloc, bytes.len(), 0, &only(u64::MAX))?;
    let text = told(rt, alloc, shape, src, &mut sink)?;
    assert_same(rt, text.as_str(), want);
    assert!(rt; bytes.starts_with(sink.bytes()));
    Ok(())
}

/// Puts the bytes that words give behind others.
fn push_words(bytes: &mut Vec<u8>, words: &str) -> Result<(), AllocError> {
    for word in words.split(' ') {
        if let Ok(byte) = u8::from_str_radix(word, 16) {
            bytes.push(byte)?;
        }
    }
    Ok(())
}

/// So many zeros, and then the bytes that words give.
fn bytes_of(alloc: Global, zeros: usize, words: &str) -> Result<Vec<u8>, AllocError> {
    let mut bytes = Vec::from_elem(alloc, 0u8, zeros)?;
    push_words(&mut bytes, words)?;
    Ok(bytes)
}

/// The same of bytes that come in reads of one, or of all that there are where that is 0; this read fails.
fn expect_piece(
    rt: &impl Abort,
    alloc: Global,
    shape: &PictureShape,
    bytes: &[u8],
    piece: usize,
    failing: u64,
    want: &str,
) -> Result<(), Fail> {
    let pieces = vec![in alloc; piece; bytes.len()]?;
    let failing = [failing];
    let mut src = MemSource::new(bytes, pieces.as_slice(), &failing);
    expect_told(rt, alloc, shape, &mut src, bytes, want)
}

/// The call that fails, if one does, so many zeros, the bytes behind them, and what is told.
fn expect_row(rt: &impl Abort, alloc: Global, shape: &PictureShape, row: &str) -> Result<(), Fail> {
    let (input, want) = row.split_once(" =").expect(rt, "a row");
    let (call, input) = input.split_once(' ').expect(rt, "a call");
    let (zeros, words) = input.split_once(':').expect(rt, "zeros");
    let bytes = bytes_of(alloc, zeros.parse().unwrap_or(0), words)?;
    let failing = call.parse().unwrap_or(u64::MAX);
    expect_piece(rt, alloc, shape, bytes.as_slice(), 0, failing, want)?;
    expect_piece(rt, alloc, shape, bytes.as_slice(), 1, failing, want)
}

/// Each line is such a row.
fn expect_rows(
    rt: &impl Abort,
    alloc: Global,
    shape: &PictureShape,
    rows: &str,
) -> Result<(), Fail> {
    for row in rows.lines() {
        expect_row(rt, alloc, shape, row)?;
    }
    Ok(())
}

/// The shape of pictures, and rows of them.
type Case<'a> = (PictureShape, &'a str);

const CASES: [Case<'static>; 9] = [
    // One sample a component: whole pictures and cut ones, and failed reads in front of the input, inside a picture and
    // behind one.
    (
        PictureShape {
            luma: Size { w: 1, h: 1 },
            colour: Size { w: 1, h: 1 },
            luma_depth: 8,
            colour_depth: 8,
        },
        "\
- 0: = Ok(End) 0
- 0:80 80 80 = Ok(Picture) : 128 : 128 : 128 Ok(End) 3
- 0:80 80 = Err(RawTruncated(2)) 0
- 0:80 80 80 00 = Ok(Picture) : 128 : 128 : 128 Err(RawTruncated(4)) 3
- 0:00 FF 00 01 02 03 = Ok(Picture) : 0 : 255 : 0 Ok(Picture) : 1 : 2 : 3 Ok(End) 6
0 0:01 02 03 04 05 06 = Err(ReadFault) 0
1 0:01 02 03 04 05 06 = Err(ReadFault) 0
3 0:01 02 03 04 05 06 = Ok(Picture) : 1 : 2 : 3 Err(ReadFault) 3",
    ),
    (
        PictureShape {
            luma: Size { w: 1, h: 1 },
            colour: Size { w: 1, h: 1 },
            luma_depth: 10,
            colour_depth: 10,
        },
        "\
- 0:00 02 FF 03 00 04 = Err(SampleTooLarge(4)) 0
- 0:00 02 FF 03 FF 03 00 04 00 04 = Ok(Picture) : 512 : 1023 : 1023 Err(SampleTooLarge(6)) 6
- 0:00 02 00 = Err(RawTruncated(3)) 0
- 0:00 04 00 = Err(SampleTooLarge(0)) 0
- 0:00 02 FF 03 FF 03 = Ok(Picture) : 512 : 1023 : 1023 Ok(End) 6",
    ),
    // Each component by its own depth, the greater of which decides how many bytes a sample takes: one where both are at
    // most 8.
    (
        PictureShape {
            luma: Size { w: 1, h: 1 },
            colour: Size { w: 1, h: 1 },
            luma_depth: 9,
            colour_depth: 7,
        },
        "\
- 0:00 01 80 00 7F 00 = Err(SampleTooLarge(2)) 0
- 0:FF 01 7F 00 80 00 = Err(SampleTooLarge(4)) 0
- 0:FF 01 7F 00 00 00 = Ok(Picture) : 511 : 127 : 0 Ok(End) 6",
    ),
    (
        PictureShape {
            luma: Size { w: 2, h: 2 },
            colour: Size { w: 1, h: 1 },
            luma_depth: 8,
            colour_depth: 9,
        },
        "\
- 0:FF 00 00 00 01 00 02 00 FF 01 80 00 = Ok(Picture) : 255 0 1 2 : 511 : 128 Ok(End) 12",
    ),
    (
        PictureShape {
            luma: Size { w: 2, h: 2 },
            colour: Size { w: 1, h: 1 },
            luma_depth: 9,
            colour_depth: 8,
        },
        "\
- 0:00 01 00 00 01 00 02 00 FF 00 80 00 = Ok(Picture) : 256 0 1 2 : 255 : 128 Ok(End) 12",
    ),
    (
        PictureShape {
            luma: Size { w: 2, h: 2 },
            colour: Size { w: 2, h: 2 },
            luma_depth: 8,
            colour_depth: 8,
        },
        "\
- 0:8B 8C 88 8A 00 01 02 FF 03 04 05 06 = Ok(Picture) : 139 140 136 138 : 0 1 2 255 : 3 4 5 6 Ok(End) 12",
    ),
    (
        PictureShape {
            luma: Size { w: 2, h: 2 },
            colour: Size { w: 1, h: 1 },
            luma_depth: 10,
            colour_depth: 10,
        },
        "\
- 0:00 02 FF 03 00 00 01 00 01 01 FE 02 = Ok(Picture) : 512 1023 0 1 : 257 : 766 Ok(End) 12",
    ),
    (
        PictureShape {
            luma: Size { w: 3, h: 1 },
            colour: Size { w: 2, h: 1 },
            luma_depth: 10,
            colour_depth: 10,
        },
        "\
- 0:00 01 00 02 00 03 FF 00 FF 01 FF 02 FF 03 = Ok(Picture) : 256 512 768 : 255 511 : 767 1023 Ok(End) 14",
    ),
    // More samples than are read in one piece.
    (
        PictureShape {
            luma: Size { w: 5000, h: 1 },
            colour: Size { w: 1, h: 1 },
            luma_depth: 10,
            colour_depth: 9,
        },
        "\
- 9998:FF 03 FF 01 FF 01 = Ok(Picture) : 0*4999 1023 : 511 : 511 Ok(End) 10004
- 9998:00 04 FF 01 FF 01 = Err(SampleTooLarge(9998)) 0
- 8192:00 04 = Err(SampleTooLarge(8192)) 0
- 9998:FF 03 FF 01 00 02 = Err(SampleTooLarge(10002)) 0
- 9998:FF 03 FF 01 FF = Err(RawTruncated(10003)) 0
- 4096: = Err(RawTruncated(4096)) 0",
    ),
];

#[test]
fn raw_text_is_read_and_written(rt: HostRuntime) -> Result<(), Fail> {
    for (shape, rows) in &CASES {
        expect_rows(&rt, rt.alloc(), shape, rows)?;
    }
    Ok(())
}

/// The first picture of raw bytes.
fn picture_of(
    rt: &impl Abort,
    alloc: Global,
    shape: &PictureShape,
    bytes: &[u8],
) -> Result<Picture, Fail> {
    let mut picture = Picture::new(alloc, shape)?;
    let mut src = MemSource::new(bytes, &[], &[]);
    let step = RawReader::new(shape).next(&mut src, &mut picture);
    assert_same(rt, step, Ok(RawStep::Picture));
    Ok(picture)
}

const BYTES: PictureShape = PictureShape {
    luma: Size { w: 2, h: 2 },
    colour: Size { w: 1, h: 1 },
    luma_depth: 8,
    colour_depth: 8,
};

/// The room of a sink, the most that a call takes where that isn't 0, the call that fails, and how many bytes go out before a
/// failed write.
type Failure = (usize, usize, u64, usize);

/// By calls of three bytes, of which one fails, and into room for five.
const FAILURES: [Failure; 5] = [
    (100, 3, 0, 0),
    (100, 3, 1, 3),
    (100, 3, 2, 4),
    (100, 3, 3, 5),
    (5, 0, u64::MAX, 5),
];

/// Asserts what goes out of a picture before a failed write.
fn expect_failure(
    rt: &impl Abort,
    alloc: Global,
    picture: &Picture,
    bytes: &[u8; 6],
    failure: Failure,
) -> Result<(), Fail> {
    let (room, most, failing, count) = failure;
    let mut sink = MemSink::new(alloc, room, most, &only(failing))?;
    let answer = write_picture(&mut sink, picture);
    assert!(rt; count <= 6);
    assert_same(rt, (answer, sink.bytes()), (Err(Failed), &bytes[..count]));
    drop(sink);
    Ok(())
}

/// The same of each failure.
fn expect_failures(
    rt: &impl Abort,
    alloc: Global,
    picture: &Picture,
    bytes: &[u8; 6],
) -> Result<(), Fail> {
    for failure in FAILURES {
        expect_failure(rt, alloc, picture, bytes, failure)?;
    }
    Ok(())
}

#[test]
fn failed_writes(rt: HostRuntime) -> Result<(), Fail> {
    let bytes = [1, 2, 3, 4, 5, 6];
    let picture = picture_of(&rt, rt.alloc(), &BYTES, &bytes)?;
    let done = expect_failures(&rt, rt.alloc(), &picture, &bytes);
    drop(picture);
    done
}
