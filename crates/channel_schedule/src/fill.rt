// The second pass of a plan: the most bytes that are held.
ghost use Rattle.std.specs.Prelude.{◌≡◌, ◌+◌, ◌^◌, ◌≤◌};
ghost use Rattle.slice_geometry.specs.UnitLengths.{IsUnitAllowed, shape_length};
ghost use Rattle.channel_schedule.specs.Courses.{course_of, unit_course, gone_in, count_in, bytes_held};
ghost use Rattle.channel_schedule.specs.Plans.{IsGreatest};

use crate::arrivals::{arrived, arriving};
use crate::lead::ends_of;
use crate::schedule::Rate;
use crate::slots::slots_of;
use slice_geometry::{UnitShape, UnitShapes};

// The place where the last slice of a unit ends, or of the units before.
pub(crate) fn gone_behind(unit: UnitShape, gone: u64) -> u64
    requires allowed { IsUnitAllowed unit }
    requires inside { unit.start + shape_length unit ≤ 2 ^ 40 }
    ensures { result ≡ gone_in gone unit unit.slices }
{
    if unit.slices == 0 {
        return gone;
    }
    unit.start + unit.head + u64::from(unit.slices) * u64::from(unit.a) / u64::from(unit.b)
}

// The most bytes that are held as the slices of a unit are taken.
fn unit_fill(unit: UnitShape, total: u64, rate: Rate, slot: u128, gone: u64) -> u64
    requires rate { 1 ≤ rate.den }
    requires allowed { IsUnitAllowed unit }
    requires inside { unit.start + shape_length unit ≤ total }
    requires total { total ≤ 2 ^ 40 }
    requires slot { slot ≤ 2 ^ 74 }
    ensures { IsGreatest (bytes_held (unit_course unit total rate slot gone)) unit.slices result }
{
    let base = unit.start + unit.head;
    let mut have = arriving(total, rate, slot);
    let mut ends = ends_of(unit);
    let mut gone = gone;
    let mut most = 0u64;
    for _j in 0..unit.slices {
        let fill = have.quotient.min(total).saturating_sub(gone);
        most = most.max(fill);
        gone = base + ends.quotient;
        have = have.next();
        ends = ends.next();
    }
    most
}

// The most bytes that are held as all slices and the tail are taken.
pub(crate) fn fill(shapes: &UnitShapes, rate: Rate, idle: u32, delay: u128) -> u64
    requires rate { 1 ≤ rate.den }
    requires delay { delay ≤ 2 ^ 72 }
    ensures { IsGreatest (bytes_held (course_of shapes.now rate idle delay))
        (count_in shapes.now) result }
{
    let total = shapes.total();
    let mut slot = 0u128;
    let mut gone = 0u64;
    let mut most = 0u64;
    for i in 0..shapes.len() {
        let unit = shapes.get(i);
        most = most.max(unit_fill(unit, total, rate, delay + slot, gone));
        gone = gone_behind(unit, gone);
        slot += slots_of(unit, idle);
    }
    let have = arrived(total, rate, delay + slot);
    most.max(have.saturating_sub(gone))
}
