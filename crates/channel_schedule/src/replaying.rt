// How a schedule comes out.
ghost use Rattle.std.specs.Prelude.{◌+◌, ◌^◌, ◌≤◌};
ghost use Rattle.slice_geometry.specs.UnitLengths.{IsUnitAllowed, shape_length};
ghost use Rattle.channel_schedule.specs.Rates.{IsSchedule};
ghost use Rattle.channel_schedule.specs.Courses.{course_of, unit_course, tail_course, count_in, IsOutcome};

use crate::arrivals::{arrived, arriving};
use crate::fill::gone_behind;
use crate::lead::ends_of;
use crate::schedule::{Outcome, Rate, Schedule};
use crate::slots::slots_of;
use slice_geometry::{UnitShape, UnitShapes};

// Goes through the slices of a unit.
fn replay_unit(unit: UnitShape, total: u64, rate: Rate, slot: u128, gone: u64, size: u64) -> Outcome
    requires rate { 1 ≤ rate.den }
    requires allowed { IsUnitAllowed unit }
    requires inside { unit.start + shape_length unit ≤ total }
    requires total { total ≤ 2 ^ 40 }
    requires slot { slot ≤ 2 ^ 74 }
    ensures { IsOutcome (unit_course unit total rate slot gone) size unit.slices result }
{
    let base = unit.start + unit.head;
    let mut steps = arriving(total, rate, slot);
    let mut ends = ends_of(unit);
    let mut gone = gone;
    for j in 0..unit.slices {
        let have = steps.quotient.min(total);
        let need = base + ends.quotient;
        if have < need {
            return Outcome::Late {
                slot: slot + u128::from(j),
                have,
                need,
            };
        }
        let fill = have.saturating_sub(gone);
        if fill > size {
            return Outcome::Overfull {
                slot: slot + u128::from(j),
                fill,
                size,
            };
        }
        gone = need;
        steps = steps.next();
        ends = ends.next();
    }
    Outcome::Runs
}

// The tail of the stream.
fn replay_tail(total: u64, rate: Rate, slot: u128, gone: u64, size: u64) -> Outcome
    requires rate { 1 ≤ rate.den }
    requires slot { slot ≤ 2 ^ 74 }
    ensures { IsOutcome (tail_course total rate slot gone) size 1 result }
{
    let have = arrived(total, rate, slot);
    if have < total {
        return Outcome::Late {
            slot,
            have,
            need: total,
        };
    }
    let fill = have.saturating_sub(gone);
    if fill > size {
        return Outcome::Overfull { slot, fill, size };
    }
    Outcome::Runs
}

/// Goes through the slices of a stream and its tail, to the first at which the schedule does not run. One that has not
/// arrived is late; else, where more bytes are held than there is room for, the buffer is too full.
pub fn replay(shapes: &UnitShapes, schedule: &Schedule) -> Outcome
    requires { IsSchedule schedule.now }
    ensures { IsOutcome (course_of shapes.now schedule.now.rate schedule.now.idle
        schedule.now.delay) schedule.now.size (count_in shapes.now) result }
{
    let total = shapes.total();
    let rate = schedule.rate;
    let delay = schedule.delay;
    let size = schedule.size;
    let idle = schedule.idle;
    let mut slot = 0u128;
    let mut gone = 0u64;
    for i in 0..shapes.len() {
        let unit = shapes.get(i);
        match replay_unit(unit, total, rate, delay + slot, gone, size) {
            Outcome::Runs => {}
            fault => return fault,
        }
        gone = gone_behind(unit, gone);
        slot += slots_of(unit, idle);
    }
    replay_tail(total, rate, delay + slot, gone, size)
}
