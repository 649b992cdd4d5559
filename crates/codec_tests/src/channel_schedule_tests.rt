//! Channel schedules: worked ones, and rows of `tools/schedule_rows.py`, which finds them by search alone.
//!
//! A row has a stream and its rate: the sequence header's length; how many pictures, and of each the bytes before its slices,
//! how many slices it has, and their share a/b; the rate's two numbers, and the idle slots behind each picture. Where a 0 stands
//! behind them, the schedule is the plan; where a 1 stands, it has a delay, shifted left by so many bits, and a size. The row
//! tells the delay, the size, and what comes of them.

ghost use Rattle.std.specs.Prelude.{◌≤◌, ◌^◌};
ghost use Rattle.channel_schedule.specs.Rates.{IsRate};

use crate::told::{assert_same, assert_told, behind, numbers};
use channel_schedule::{Outcome, Rate, Schedule, plan, replay};
use slice_geometry::{UnitShape, UnitShapes};
use std::alloc::Global;
use std::process::Abort;

/// Appends a unit behind the others.
fn append(rt: &impl Abort, shapes: &mut UnitShapes, head: u32, slices: u32, a: u32, b: u32) {
    assert!(rt; shapes.reserve(1).is_ok());
    let start = shapes.total();
    let head = u64::from(head);
    assert!(rt; 1 <= b && b <= a && slices <= 1 << 20);
    let share = u64::from(slices) * u64::from(a) / u64::from(b);
    assert!(rt; share <= 1 << 28 && start + (head + share) <= 1 << 40);
    shapes.push(UnitShape {
        start,
        head,
        slices,
        a,
        b,
    });
}

/// Appends pictures that are alike, behind a sequence header and before an end of sequence.
fn append_sequence(rt: &impl Abort, shapes: &mut UnitShapes, row: &[u32; 16], pictures: u32) {
    let [header, _, head, slices, a, b, ..] = *row;
    append(rt, shapes, header, 0, 1, 1);
    for _ in 0..pictures {
        append(rt, shapes, head, slices, a, b);
    }
    append(rt, shapes, 13, 0, 1, 1);
}

/// One sequence of a row's pictures.
fn shapes_of(rt: &impl Abort, alloc: Global, row: &[u32; 16]) -> UnitShapes {
    let mut shapes = UnitShapes::new(alloc);
    append_sequence(rt, &mut shapes, row, row[1]);
    shapes
}

/// So many sequences of a row's pictures; where it has 0 of them, one sequence of so many.
fn parts_of(rt: &impl Abort, alloc: Global, row: &[u32; 16], parts: u32) -> UnitShapes {
    let mut shapes = UnitShapes::new(alloc);
    if row[1] == 0 {
        append_sequence(rt, &mut shapes, row, parts);
        return shapes;
    }
    for _ in 0..parts {
        append_sequence(rt, &mut shapes, row, row[1]);
    }
    shapes
}

fn rate_of(rt: &impl Abort, num: u32, den: u32) -> Rate
    ensures { IsRate result }
{
    assert!(rt; 1 <= num && 1 <= den);
    Rate { num, den }
}

/// Plans: worked ones without idle slots, among them no picture, and rates far below and above, then those that were found by
/// search; the same with idle slots, at the bounds of the rate and of the idle slots too.
const PLANS: &str = "\
(2, 42, Runs)|17 1 20 1 1 1 21 1 0 0
(2, 30, Runs)|17 0 0 1 1 1 21 1 0 0
(210, 30, Runs)|17 0 0 1 1 1 1 7 0 0
(2, 52, Runs)|17 1 21 1 5 1 26 1 0 0
(2, 160, Runs)|22 1 29 16200 80 1 1296029 16200 0 0
(2, 160, Runs)|22 2 29 16200 80 1 1296029 16200 0 0
(12, 63, Runs)|17 2 20 1 1 1 21 4 0 0
(1, 51, Runs)|17 1 20 1 1 1 4294967295 1 0 0
(1, 36, Runs)|17 3 15 1 4 2 35 1 0 0
(4, 37, Runs)|17 1 15 1 2 2 28 3 0 0
(75, 30, Runs)|17 0 26 9 2 1 4 10 0 0
(2, 30, Runs)|17 0 14 7 2 1 15 1 0 0
(75, 75, Runs)|17 1 26 5 34 7 10 10 0 0
(6, 79, Runs)|17 2 39 9 5 1 12 1 0 0
(1, 36, Runs)|17 1 16 6 25 7 36 1 0 0
(5, 58, Runs)|17 1 34 8 8 7 35 3 0 0
(3, 79, Runs)|17 3 22 6 9 2 16 1 0 0
(7, 51, Runs)|17 2 28 9 1 1 22 3 0 0
(6, 30, Runs)|17 0 26 9 3 2 11 2 0 0
(285, 142, Runs)|17 3 34 1 4 1 5 10 0 0
(55, 126, Runs)|17 2 35 6 32 7 23 10 0 0
(51, 153, Runs)|17 3 39 2 12 3 6 2 0 0
(15, 30, Runs)|17 0 36 1 14 3 20 10 0 0
(3, 70, Runs)|17 3 13 6 7 3 30 2 0 0
(5, 30, Runs)|17 0 14 8 5 1 14 2 0 0
(2, 127, Runs)|17 3 40 7 2 1 32 1 0 0
(40, 120, Runs)|17 3 21 9 4 1 9 3 0 0
(3, 109, Runs)|17 3 34 6 15 7 25 1 0 0
(8, 42, Runs)|17 2 20 1 1 1 21 4 3 0
(4, 42, Runs)|17 1 20 1 1 1 21 2 1 0
(6, 30, Runs)|17 0 20 1 1 1 21 4 3 0
(1897426, 38, Runs)|17 2 20 1 1 1 21 1048577 1048576 0
(309235548086, 71, Runs)|17 2 20 1 1 1 1 4294967295 1048576 0
(1, 72, Runs)|17 2 20 1 1 1 4294967295 1 1048576 0
(300647710648, 69, Runs)|17 2 20 1 1 1 1 4294967295 4294967295 0
(38, 38, Runs)|17 2 20 1 1 1 4294967295 4294967295 4294967295 0
(4, 55, Runs)|17 3 16 2 18 7 32 3 10 0
(3, 30, Runs)|17 0 16 3 7 3 22 2 10 0
(2, 30, Runs)|17 0 29 4 5 1 24 1 100 0
(61, 103, Runs)|17 2 35 2 5 1 17 10 3 0
(4, 66, Runs)|17 1 30 9 3 1 33 2 2 0
(3, 78, Runs)|17 1 39 4 32 7 26 1 2 0
(6, 36, Runs)|17 2 13 1 22 7 18 3 3 0
(6, 77, Runs)|17 2 38 8 5 1 23 2 1 0
(2, 44, Runs)|17 1 19 8 1 1 22 1 10 0
(2, 30, Runs)|17 0 33 8 35 7 23 1 1 0
(3, 42, Runs)|17 1 18 8 15 3 28 2 1 0
(6, 66, Runs)|17 3 36 2 10 3 11 1 2 0
(4, 75, Runs)|17 3 32 3 2 1 39 3 3 0
(66, 46, Runs)|17 1 13 1 5 1 7 10 2 0
(6, 42, Runs)|17 1 21 1 6 3 14 2 100 0
(2, 73, Runs)|17 2 30 5 5 1 27 1 1 0
";

/// Schedules: first of a worked stream; then of streams whose plan was found by search, with one byte less of room, with one slot
/// less of delay, and with one idle slot less and one more.
const OUTCOMES: &str = "\
(2, 42, Runs)|17 1 20 1 1 1 21 1 0 1 2 0 42
(2, 41, Overfull { slot: 2, fill: 42, size: 41 })|17 1 20 1 1 1 21 1 0 1 2 0 41
(1, 42, Late { slot: 1, have: 21, need: 38 })|17 1 20 1 1 1 21 1 0 1 1 0 42
(0, 42, Late { slot: 0, have: 0, need: 38 })|17 1 20 1 1 1 21 1 0 1 0 0 42
(4722366482869645213696, 50, Overfull { slot: 4722366482869645213696, fill: 51, size: 50 })|17 1 20 1 1 1 21 1 0 1 1 72 50
(3, 44, Overfull { slot: 3, fill: 45, size: 44 })|17 1 20 3 1 1 15 1 0 1 3 0 44
(2, 45, Late { slot: 2, have: 30, need: 38 })|17 1 20 3 1 1 15 1 0 1 2 0 45
(67, 66, Overfull { slot: 67, fill: 67, size: 66 })|17 1 22 5 12 3 1 1 0 1 67 0 66
(66, 67, Late { slot: 71, have: 71, need: 72 })|17 1 22 5 12 3 1 1 0 1 66 0 67
(21, 68, Overfull { slot: 21, fill: 69, size: 68 })|17 2 17 6 11 3 33 10 0 1 21 0 68
(20, 69, Late { slot: 32, have: 105, need: 108 })|17 2 17 6 11 3 33 10 0 1 20 0 69
(2, 122, Overfull { slot: 8, fill: 123, size: 122 })|17 3 25 7 4 1 26 1 0 1 2 0 122
(1, 123, Late { slot: 1, have: 26, need: 46 })|17 3 25 7 4 1 26 1 0 1 1 0 123
(17, 84, Overfull { slot: 17, fill: 85, size: 84 })|17 3 19 1 13 3 5 1 0 1 17 0 84
(16, 85, Late { slot: 19, have: 95, need: 99 })|17 3 19 1 13 3 5 1 0 1 16 0 85
(8, 29, Overfull { slot: 8, fill: 30, size: 29 })|17 0 32 6 5 3 4 1 0 1 8 0 29
(7, 30, Late { slot: 7, have: 28, need: 30 })|17 0 32 6 5 3 4 1 0 1 7 0 30
(29, 68, Overfull { slot: 29, fill: 69, size: 68 })|17 1 16 9 5 1 24 10 0 1 29 0 68
(28, 69, Late { slot: 37, have: 88, need: 91 })|17 1 16 9 5 1 24 10 0 1 28 0 69
(5, 41, Overfull { slot: 5, fill: 42, size: 41 })|17 1 17 7 1 1 17 2 0 1 5 0 41
(4, 42, Late { slot: 4, have: 34, need: 35 })|17 1 17 7 1 1 17 2 0 1 4 0 42
(8, 42, Late { slot: 11, have: 57, need: 59 })|17 2 20 1 1 1 21 4 2 1 8 0 42
(8, 42, Runs)|17 2 20 1 1 1 21 4 4 1 8 0 42
(8, 41, Overfull { slot: 8, fill: 42, size: 41 })|17 2 20 1 1 1 21 4 3 1 8 0 41
(7, 42, Late { slot: 7, have: 36, need: 38 })|17 2 20 1 1 1 21 4 3 1 7 0 42
(4, 55, Runs)|17 3 16 2 18 7 32 3 9 1 4 0 55
(4, 55, Runs)|17 3 16 2 18 7 32 3 11 1 4 0 55
(4, 54, Overfull { slot: 16, fill: 55, size: 54 })|17 3 16 2 18 7 32 3 10 1 4 0 54
(3, 55, Late { slot: 3, have: 32, need: 35 })|17 3 16 2 18 7 32 3 10 1 3 0 55
(61, 103, Late { slot: 69, have: 117, need: 120 })|17 2 35 2 5 1 17 10 2 1 61 0 103
(61, 103, Runs)|17 2 35 2 5 1 17 10 4 1 61 0 103
(61, 102, Overfull { slot: 61, fill: 103, size: 102 })|17 2 35 2 5 1 17 10 3 1 61 0 102
(60, 103, Late { slot: 70, have: 119, need: 120 })|17 2 35 2 5 1 17 10 3 1 60 0 103
(6, 36, Runs)|17 2 13 1 22 7 18 3 2 1 6 0 36
(6, 36, Runs)|17 2 13 1 22 7 18 3 4 1 6 0 36
(6, 35, Overfull { slot: 6, fill: 36, size: 35 })|17 2 13 1 22 7 18 3 3 1 6 0 35
(5, 36, Late { slot: 5, have: 30, need: 33 })|17 2 13 1 22 7 18 3 3 1 5 0 36
(6, 77, Runs)|17 2 38 8 5 1 23 2 0 1 6 0 77
(6, 77, Overfull { slot: 16, fill: 89, size: 77 })|17 2 38 8 5 1 23 2 2 1 6 0 77
(6, 76, Overfull { slot: 15, fill: 77, size: 76 })|17 2 38 8 5 1 23 2 1 1 6 0 76
(5, 77, Late { slot: 5, have: 57, need: 60 })|17 2 38 8 5 1 23 2 1 1 5 0 77
";

/// Plans that are known before the stream is. A row has the columns of a plan, without the last, and its rate carries a picture
/// in its slots; or, where it has pictures, a sequence of so many in the slots of these. It tells the delay, the size for one
/// part, and that for two and more.
const KNOWN: &str = "\
(2, 42, 42)|17 0 20 1 1 1 21 1 0
(8, 42, 42)|17 0 20 1 1 1 21 4 3
(2, 130, 130)|20 0 25 24 64 1 1561 24 0
(8, 416, 416)|20 0 25 24 64 1 1561 30 6
(2, 61, 62)|17 0 25 1 6 1 31 1 0
(2, 72, 85)|17 2 20 1 1 1 72 2 0
(6, 47, 57)|17 3 17 9 9 2 201 27 0
(2, 72, 85)|17 1 37 1 15 3 72 2 1
(18, 47, 47)|17 0 14 9 12 3 50 19 10
(5, 48, 48)|17 0 19 4 5 1 39 4 0
(5, 55, 55)|17 0 27 2 21 7 33 3 1
(6, 45, 55)|17 3 20 9 9 2 210 30 1
(3, 57, 70)|17 3 25 2 5 3 114 6 0
(6, 60, 60)|17 0 34 4 4 1 50 5 1
(13, 48, 61)|17 2 27 3 4 2 96 26 10
(10, 53, 66)|17 1 35 3 5 3 70 13 10
(4, 51, 64)|17 1 23 6 8 2 77 6 0
(8, 64, 74)|17 3 35 8 10 2 255 33 3
";

/// The schedule of a row's numbers: the plan, or where a 1 stands, one with a delay, which is shifted left, and a size.
fn schedule_of(rt: &impl Abort, shapes: &UnitShapes, of: &[u32; 16]) -> Schedule
    ensures rate { IsRate result.rate }
    ensures delay { result.delay ≤ 2 ^ 72 }
{
    let rate = rate_of(rt, of[6], of[7]);
    if of[9] == 0 {
        return plan(shapes, rate, of[8]);
    }
    assert!(rt; of[11] <= 72 && of[10] < 1 << 20);
    let delay = u128::from(of[10]) << of[11];
    assert!(rt; delay <= 1 << 72);
    Schedule {
        rate,
        delay,
        size: u64::from(of[12]),
        idle: of[8],
    }
}

/// Asserts the delay and the size of a row's schedule, and what comes of it.
fn expect_outcome(rt: &impl Abort, alloc: Global, row: &str) {
    let of = numbers(behind(rt, row));
    let shapes = shapes_of(rt, alloc, &of);
    let schedule = schedule_of(rt, &shapes, &of);
    let outcome = replay(&shapes, &schedule);
    drop(shapes);
    assert!(rt; schedule.idle == of[8]);
    assert_told(rt, row, (schedule.delay, schedule.size, outcome));
}

#[test]
fn plans_are_the_least(rt: HostRuntime) {
    for row in PLANS.lines() {
        expect_outcome(&rt, rt.alloc(), row);
    }
}

#[test]
fn schedules_come_out_as_worked(rt: HostRuntime) {
    for row in OUTCOMES.lines() {
        expect_outcome(&rt, rt.alloc(), row);
    }
}

/// Two units of padding between two pictures: no slots are idle behind them.
#[test]
fn idle_slots_behind_pictures_alone(rt: HostRuntime) {
    let mut shapes = UnitShapes::new(rt.alloc());
    for (head, slices) in &[(17, 0), (20, 1), (13, 0), (13, 0), (20, 1), (13, 0)] {
        append(&rt, &mut shapes, *head, *slices, 1, 1);
    }
    let rate = rate_of(&rt, 21, 4);
    let (without, with) = (plan(&shapes, rate, 0), plan(&shapes, rate, 3));
    let outcomes = [replay(&shapes, &without), replay(&shapes, &with)];
    drop(shapes);
    let plans = [(without.delay, without.size), (with.delay, with.size)];
    assert_same(&rt, plans, [(17, 89), (13, 68)]);
    assert_same(&rt, outcomes, [Outcome::Runs, Outcome::Runs]);
}

/// The plan of a stream of so many parts, at a row's rate.
fn plan_of_parts(rt: &impl Abort, alloc: Global, of: &[u32; 16], parts: u32) -> Schedule {
    let shapes = parts_of(rt, alloc, of, parts);
    let rate = rate_of(rt, of[6], of[7]);
    plan(&shapes, rate, of[8])
}

/// Asserts that streams of two to six parts have one plan, and the delay of one part.
fn expect_known(rt: &impl Abort, alloc: Global, row: &str) {
    let of = numbers(behind(rt, row));
    let one = plan_of_parts(rt, alloc, &of, 1);
    let two = plan_of_parts(rt, alloc, &of, 2);
    assert_told(rt, row, (two.delay, one.size, two.size));
    assert_same(rt, one.delay, two.delay);
    for parts in 3..7 {
        assert_same(rt, plan_of_parts(rt, alloc, &of, parts), two);
    }
}

#[test]
fn schedules_are_known_before_the_stream(rt: HostRuntime) {
    for row in KNOWN.lines() {
        expect_known(&rt, rt.alloc(), row);
    }
}
