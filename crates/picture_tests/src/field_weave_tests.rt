//! Two fields and their frame, sample by sample.
//!
//! Owners are dropped by name, since the proof of that call is short.

ghost use Rattle.std.specs.Prelude.{◌≡◌};

use crate::checks::assert_same;
use field_weave::{Order, split_frame, weave_pair};
use picture_codec::Picture;
use slice_geometry::{Component, PictureShape, Size};
use std::alloc::Global;
use std::process::Abort;

const COLOUR: Size = Size { w: 1, h: 1 };

const FIELD: PictureShape = PictureShape {
    luma: Size { w: 2, h: 2 },
    colour: COLOUR,
    luma_depth: 8,
    colour_depth: 8,
};

const FRAME: PictureShape = PictureShape {
    luma: Size { w: 2, h: 4 },
    colour: Size { w: 1, h: 2 },
    luma_depth: 8,
    colour_depth: 8,
};

/// The rows of luma, of two samples each, of a first field, of a second one, and of their frame.
type Pair = (Order, [[u8; 2]; 2], [[u8; 2]; 2], [[u8; 2]; 4]);

const PAIRS: [Pair; 2] = [
    (
        Order::Top,
        [[1, 2], [3, 4]],
        [[5, 6], [7, 255]],
        [[1, 2], [5, 6], [3, 4], [7, 255]],
    ),
    (
        Order::Bottom,
        [[1, 2], [3, 4]],
        [[5, 6], [7, 255]],
        [[5, 6], [1, 2], [7, 255], [3, 4]],
    ),
];

/// A picture of zeros.
fn blank(rt: &impl Abort, alloc: Global, shape: &PictureShape) -> Picture
    ensures { result.shape ≡ shape.now }
{
    Picture::new(alloc, shape).expect(rt, "memory")
}

fn put(rt: &impl Abort, picture: &mut Picture, y: u32, x: u32, v: u8)
    ensures { picture.new.shape ≡ picture.old.shape }
{
    let shape = *picture.shape();
    assert!(rt; y < shape.luma.h && x < shape.luma.w && shape.luma_depth == 8);
    picture.set(Component::Luma, y, x, u32::from(v));
}

fn put_row(rt: &impl Abort, picture: &mut Picture, y: u32, row: &[u8; 2])
    ensures { picture.new.shape ≡ picture.old.shape }
{
    put(rt, picture, y, 0, row[0]);
    put(rt, picture, y, 1, row[1]);
}

fn put_rows(rt: &impl Abort, picture: &mut Picture, rows: &[[u8; 2]; 2])
    ensures { picture.new.shape ≡ picture.old.shape }
{
    put_row(rt, picture, 0, &rows[0]);
    put_row(rt, picture, 1, &rows[1]);
}

fn expect(rt: &impl Abort, picture: &Picture, y: u32, row: &[u8; 2]) {
    let size = picture.shape().luma;
    assert!(rt; y < size.h && size.w == 2);
    assert_same(rt, picture.sample(Component::Luma, y, 0), u32::from(row[0]));
    assert_same(rt, picture.sample(Component::Luma, y, 1), u32::from(row[1]));
}

/// The pictures of a pair, and the frame's rows.
fn expect_woven(
    rt: &impl Abort,
    first: &Picture,
    second: &Picture,
    frame: &mut Picture,
    pair: &Pair,
)
    requires { second.now.shape ≡ first.now.shape }
{
    let (order, _, _, rows) = pair;
    assert!(rt; *first.shape() == FIELD && *frame.shape() == FRAME);
    weave_pair(first, second, *order, frame);
    expect(rt, frame, 0, &rows[0]);
    expect(rt, frame, 1, &rows[1]);
    expect(rt, frame, 2, &rows[2]);
    expect(rt, frame, 3, &rows[3]);
}

/// A frame gives its fields again.
fn expect_split(
    rt: &impl Abort,
    frame: &Picture,
    first: &mut Picture,
    second: &mut Picture,
    pair: &Pair,
)
    requires { second.old.shape ≡ first.old.shape }
{
    let (order, one, other, _) = pair;
    assert!(rt; *first.shape() == FIELD && *frame.shape() == FRAME);
    split_frame(frame, *order, first, second);
    expect(rt, first, 0, &one[0]);
    expect(rt, first, 1, &one[1]);
    expect(rt, second, 0, &other[0]);
    expect(rt, second, 1, &other[1]);
}

/// The same into fresh fields.
fn expect_fields(rt: &impl Abort, alloc: Global, frame: &Picture, pair: &Pair) {
    let field = FIELD;
    let mut first = blank(rt, alloc, &field);
    let mut second = blank(rt, alloc, &field);
    expect_split(rt, frame, &mut first, &mut second, pair);
    drop(first);
    drop(second);
}

/// Fields are woven, and their frame is split.
fn expect_pair(rt: &impl Abort, alloc: Global, pair: &Pair) {
    let mut frame = blank(rt, alloc, &FRAME);
    let field = FIELD;
    let mut first = blank(rt, alloc, &field);
    let mut second = blank(rt, alloc, &field);
    put_rows(rt, &mut first, &pair.1);
    put_rows(rt, &mut second, &pair.2);
    expect_woven(rt, &first, &second, &mut frame, pair);
    drop(first);
    drop(second);
    expect_fields(rt, alloc, &frame, pair);
    drop(frame);
}

#[test]
fn pairs_and_their_frames(rt: HostRuntime) {
    for pair in &PAIRS {
        expect_pair(&rt, rt.alloc(), pair);
    }
}
