//! Shares, rectangles, and the units of a stream.

use crate::told::assert_same;
use planes::Rect;
use slice_geometry::{Layout, LayoutFault, Size, length_bits};
use std::process::Abort;

fn layout(rt: &impl Abort, depth: u32, across: u32, down: u32, a: u32, b: u32) -> Layout {
    Layout::check(depth, across, down, a, b)
        .ok()
        .expect(rt, "a layout")
}

// Seven bytes for three slices: every third slice has three. Another share makes another layout. Lengths have their bits.
#[test]
fn shares_follow_the_fraction(rt: HostRuntime) {
    let thirds = layout(&rt, 0, 3, 2, 7, 3);
    assert!(&rt; thirds.count() == 6);
    let shares = [
        thirds.share(0),
        thirds.share(1),
        thirds.share(2),
        thirds.share(3),
        thirds.share(4),
        thirds.share(5),
    ];
    assert_same(&rt, shares, [2, 2, 3, 2, 2, 3]);
    let same = thirds == layout(&rt, 0, 3, 2, 7, 3);
    let other = thirds == layout(&rt, 0, 3, 2, 7, 2);
    let found = (thirds.total_bytes(), same, other);
    assert_same(&rt, found, (14, true, false));
    let bits = [
        length_bits(1),
        length_bits(2),
        length_bits(3),
        length_bits(1 << 28),
    ];
    assert_same(&rt, bits, [0, 4, 5, 31]);
}

const MOST: u32 = u32::MAX;

/// The depth, the slices across and down, the share's two numbers, and the first rule that they break.
const RULES: [([u32; 5], Option<LayoutFault>); 12] = [
    ([5, 0, 0, 0, 0], Some(LayoutFault::Depth)),
    ([4, 0, 1, 1, 1], Some(LayoutFault::Slices)),
    ([4, 1, 0, 0, 0], Some(LayoutFault::Slices)),
    ([0, 8193, 1, 1, 1], Some(LayoutFault::Slices)),
    ([0, 8192, 129, 0, 0], Some(LayoutFault::Slices)),
    ([0, 1, 1, 0, 0], Some(LayoutFault::Share)),
    ([0, 1, 1, 2, 3], Some(LayoutFault::Share)),
    ([0, 8192, 128, 257, 1], Some(LayoutFault::Share)),
    ([4, 8192, 128, 256, 1], None),
    ([0, 8192, 128, MOST, MOST - 1], None),
    ([0, 8192, 128, 1, 1], None),
    ([0, 1, 1, 1 << 28, 1], None),
];

// The order of the rules, and layouts at the limits.
#[test]
fn the_first_broken_rule_is_told(rt: HostRuntime) {
    for (numbers, fault) in &RULES {
        let [depth, across, down, a, b] = *numbers;
        let answer = Layout::check(depth, across, down, a, b);
        assert_same(&rt, (*numbers, answer.err()), (*numbers, *fault));
    }
    let largest = layout(&rt, 0, 8192, 128, MOST, MOST - 1);
    assert_same(&rt, largest.total_bytes(), 1 << 20);
}

/// A component of 5x3 is padded to 8x4 at depth 2.
const FIVE_BY_THREE: Size = Size { w: 5, h: 3 };

#[test]
fn bands_have_their_sizes(rt: HostRuntime) {
    let three = layout(&rt, 2, 3, 1, 1, 1);
    assert!(&rt; three.depth() == 2);
    let sizes = [
        three.padded_size(FIVE_BY_THREE),
        three.band_size(FIVE_BY_THREE, 0),
        three.band_size(FIVE_BY_THREE, 1),
        three.band_size(FIVE_BY_THREE, 2),
    ];
    let wanted = [
        Size { w: 8, h: 4 },
        Size { w: 2, h: 1 },
        Size { w: 2, h: 1 },
        Size { w: 4, h: 2 },
    ];
    assert_same(&rt, sizes, wanted);
}

/// A level, a slice of the first row, its columns, and the end of its rows.
const PLACES: [(u32, u32, u32, u32, u32); 6] = [
    (0, 0, 0, 0, 1),
    (0, 1, 0, 1, 1),
    (0, 2, 1, 2, 1),
    (2, 0, 0, 1, 2),
    (2, 1, 1, 2, 2),
    (2, 2, 2, 4, 2),
];

#[test]
fn slices_have_their_places(rt: HostRuntime) {
    let three = layout(&rt, 2, 3, 1, 1, 1);
    for (level, sx, x0, x1, y1) in &PLACES {
        assert!(&rt; *level <= three.depth() && *sx < three.slices_x());
        let found = three.band_rect(FIVE_BY_THREE, *level, *sx, 0);
        assert_same(
            &rt,
            found,
            Rect {
                x0: *x0,
                x1: *x1,
                y0: 0,
                y1: *y1,
            },
        );
    }
}
