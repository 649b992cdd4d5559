//! The stream of one picture of one sample: its heads, cut at each byte, over a source that fails, and unit by unit.

use crate::stream_units_tests::reading::{
    By, assert_same, expect_bytes, expect_piece, expect_rows,
};
use crate::told::bytes_of;
use sequence_header::{AspectField, ColourField, HeaderParts, RateField, SignalField};
use slice_geometry::{UnitShape, UnitShapes};
use std::alloc::Global;
use std::process::Abort;
use std::test::Fail;
use stream_units::{HeadReader, Item, StreamReader, first_unit};
use vc2_io::SteadySource;

/// Its heads, and what comes of the bytes behind them.
const HEADS: &str = "\
header picture end = 0 SequenceHeader 17 0 17 LowDelayPicture 21 17 38 EndOfSequence 0 21 End
header picture end 424243 = 0 SequenceHeader 17 0 17 LowDelayPicture 21 17 38 EndOfSequence 0 21 51 Truncated
header picture end 42424345 = 0 SequenceHeader 17 0 17 LowDelayPicture 21 17 38 EndOfSequence 0 21 51 BadPrefix
header picture end unit E8 = 0 SequenceHeader 17 0 17 LowDelayPicture 21 17 \
    38 EndOfSequence 0 21 55 UnsupportedCode(232)
header picture end unit 30 0000000C = 0 SequenceHeader 17 0 17 LowDelayPicture 21 17 \
    38 EndOfSequence 0 21 56 OffsetShort
header picture end unit 30 0000000E 00000000 = 0 SequenceHeader 17 0 17 LowDelayPicture 21 17 \
    38 EndOfSequence 0 21 64 Truncated";

#[test]
fn heads_in_order(rt: HostRuntime) -> Result<(), Fail> {
    expect_rows(&rt, rt.alloc(), HEADS, &By::Heads)
}

/// What is told of its first bytes, from none of them to all but one.
const CUTS: &str = "\
= 0 Truncated
= 0 Truncated
= 0 Truncated
= 0 Truncated
= 4 Truncated
= 5 Truncated
= 5 Truncated
= 5 Truncated
= 5 Truncated
= 9 Truncated
= 9 Truncated
= 9 Truncated
= 9 Truncated
= 13 Truncated
= 14 Truncated
= 15 Truncated
= 16 Truncated
= Sequence 17 Truncated
= Sequence 17 Truncated
= Sequence 17 Truncated
= Sequence 17 Truncated
= Sequence 21 Truncated
= Sequence 22 Truncated
= Sequence 22 Truncated
= Sequence 22 Truncated
= Sequence 22 Truncated
= Sequence 26 Truncated
= Sequence 26 Truncated
= Sequence 26 Truncated
= Sequence 26 Truncated
= Sequence 30 Truncated
= Sequence 30 Truncated
= Sequence 30 Truncated
= Sequence 30 Truncated
= Sequence 34 Truncated
= Sequence 34 Truncated
= Sequence 35 Truncated
= Sequence 37 Truncated
= Sequence Picture(0) 38 Truncated
= Sequence Picture(0) 38 Truncated
= Sequence Picture(0) 38 Truncated
= Sequence Picture(0) 38 Truncated
= Sequence Picture(0) 42 Truncated
= Sequence Picture(0) 43 Truncated
= Sequence Picture(0) 43 Truncated
= Sequence Picture(0) 43 Truncated
= Sequence Picture(0) 43 Truncated
= Sequence Picture(0) 47 Truncated
= Sequence Picture(0) 47 Truncated
= Sequence Picture(0) 47 Truncated
= Sequence Picture(0) 47 Truncated";

/// The bytes cut at each length.
fn expect_cuts(rt: &impl Abort, alloc: Global, bytes: &[u8]) -> Result<(), Fail> {
    for (length, line) in CUTS.lines().enumerate() {
        let (_, told) = line.split_once('=').expect(rt, "a line");
        assert!(rt; length < bytes.len());
        expect_bytes(rt, alloc, &bytes[..length], told, &By::Items)?;
    }
    Ok(())
}

#[test]
fn cut_at_each_byte(rt: HostRuntime) -> Result<(), Fail> {
    let bytes = bytes_of(rt.alloc(), "header picture end")?;
    expect_cuts(&rt, rt.alloc(), bytes.as_slice())
}

/// What is told where a read fails, by the units that stand whole before.
const FAULTS: [&str; 3] = [
    " ReadFault",
    " Sequence ReadFault",
    " Sequence Picture(0) ReadFault",
];

const HEAD_FAULTS: [&str; 4] = [
    " ReadFault",
    " 0 SequenceHeader 17 0 ReadFault",
    " 0 SequenceHeader 17 0 17 LowDelayPicture 21 17 ReadFault",
    " 0 SequenceHeader 17 0 17 LowDelayPicture 21 17 38 EndOfSequence 0 21 ReadFault",
];

/// One read fails, where each byte comes alone.
fn expect_failing(rt: &impl Abort, alloc: Global, bytes: &[u8], call: u64) -> Result<(), Fail> {
    let units = usize::from(call >= 17) + usize::from(call >= 38);
    let want = (FAULTS[units], false, 4096);
    expect_piece::<StreamReader>(rt, alloc, bytes, 1, call, want)?;
    let want = (HEAD_FAULTS[units + usize::from(call >= 51)], false, 0);
    expect_piece::<HeadReader>(rt, alloc, bytes, 1, call, want)
}

/// Each read fails in turn.
#[test]
fn each_read_fails(rt: HostRuntime) -> Result<(), Fail> {
    let bytes = bytes_of(rt.alloc(), "header picture end")?;
    for call in 0..52 {
        expect_failing(&rt, rt.alloc(), bytes.as_slice(), call)?;
    }
    Ok(())
}

/// An item, whether a header and a picture are shown behind it, and the bytes taken and held.
type Step = (Item, bool, bool, u64, usize);

const STEPS: [Step; 3] = [
    (Item::Sequence, true, false, 17, 34),
    (Item::Picture(0), true, true, 38, 13),
    (Item::End, true, false, 51, 0),
];

fn expect_steps(rt: &impl Abort, reader: &mut StreamReader, bytes: &[u8], steps: &[Step]) {
    let mut src = SteadySource::new(bytes);
    for step in steps {
        let item = reader.next(&mut src).ok().expect(rt, "an item");
        let has_header = reader.header().is_some();
        let has_picture = reader.picture().is_some();
        let found = (item, has_header, has_picture, reader.taken(), reader.held());
        assert_same(rt, found, *step);
    }
}

/// A header, a picture of one slice, which begins 20 bytes behind its unit's first, and the end.
const SHAPES: [UnitShape; 3] = [
    UnitShape {
        start: 0,
        head: 17,
        slices: 0,
        a: 1,
        b: 1,
    },
    UnitShape {
        start: 17,
        head: 20,
        slices: 1,
        a: 1,
        b: 1,
    },
    UnitShape {
        start: 38,
        head: 13,
        slices: 0,
        a: 1,
        b: 1,
    },
];

fn expect_shapes(rt: &impl Abort, shapes: &UnitShapes, wants: &[UnitShape]) {
    assert_same(rt, (shapes.len(), shapes.total()), (3, 51));
    for (number, shape) in wants.iter().enumerate() {
        assert!(rt; number < shapes.len());
        assert_same(rt, shapes.get(number), *shape);
    }
}

/// What a reader shows behind each unit, and the shapes of all.
#[test]
fn unit_by_unit(rt: HostRuntime) -> Result<(), Fail> {
    let bytes = bytes_of(rt.alloc(), "header picture end")?;
    let mut reader = StreamReader::new(rt.alloc())?;
    expect_steps(&rt, &mut reader, bytes.as_slice(), &STEPS);
    expect_shapes(&rt, reader.shapes(), &SHAPES);
    drop(reader);
    Ok(())
}

/// What its sequence header holds.
const PARTS: HeaderParts = HeaderParts {
    major: 1,
    minor: 0,
    level: 0,
    width: 1,
    height: 1,
    sampling: 0,
    scan: None,
    rate: RateField::Index(3),
    aspect: AspectField::Default,
    clean: None,
    signal: SignalField::Index(1),
    colour: ColourField::Default,
    coding: 0,
};

/// The first unit alone.
#[test]
fn its_first_unit(rt: HostRuntime) -> Result<(), Fail> {
    let bytes = b"BBCD\x00\x00\x00\x00\x11\x00\x00\x00\x00\x3F\x27\x42\x4A";
    let (header, length) = first_unit(bytes).ok().expect(&rt, "a header unit");
    assert_same(&rt, (*header.parts(), length), (PARTS, 17));
    Ok(())
}
