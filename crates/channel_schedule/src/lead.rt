// The first pass of a plan: how far the slices are ahead of the channel.
ghost use Rattle.std.specs.Prelude.{◌+◌, ◌^◌, ◌≤◌};
ghost use Rattle.slice_geometry.specs.UnitLengths.{IsUnitAllowed, ShapesInTurn, shape_length};
ghost use Rattle.channel_schedule.specs.Courses.{count_in};
ghost use Rattle.channel_schedule.specs.Plans.{IsGreatest, lead_of, lead_in, asked_in};
ghost use Rattle.channel_schedule.specs.Stepping.{IsAt};

use crate::schedule::Rate;
use crate::slots::slots_of;
use crate::stepped_quotient::SteppedQuotient;
use slice_geometry::{UnitShape, UnitShapes};

// The ends of a unit's slices, from that of slice 0 on.
#[inline(always)]
pub(crate) fn ends_of(unit: UnitShape) -> SteppedQuotient
    requires { 1 ≤ unit.b }
    ensures { IsAt result unit.a unit.b unit.a }
{
    SteppedQuotient::new(
        u64::from(unit.a / unit.b),
        u64::from(unit.a % unit.b),
        unit.a,
        unit.b,
    )
}

// The greatest of what the slices of a unit ask for by their end, and leave to the slots behind them.
fn most_asked(unit: UnitShape, rate: Rate) -> u64
    requires { IsUnitAllowed unit }
    ensures { IsGreatest (asked_in unit rate) unit.slices result }
{
    let num = u64::from(rate.num);
    let den = u64::from(rate.den);
    let mut ends = ends_of(unit);
    let mut most = 0u64;
    for j in 0..unit.slices {
        let asked = ends.quotient * den + u64::from(unit.slices - j) * num;
        most = most.max(asked);
        ends = ends.next();
    }
    most
}

// The same, where it is known of a unit like this one: it depends on the slices and their share alone.
fn asked_like(unit: UnitShape, rate: Rate, like: UnitShape, known: u64) -> u64
    requires allowed { IsUnitAllowed unit }
    requires known { IsGreatest (asked_in like rate) like.slices known }
    ensures { IsGreatest (asked_in unit rate) unit.slices result }
{
    if unit.slices == like.slices && unit.a == like.a && unit.b == like.b {
        return known;
    }
    most_asked(unit, rate)
}

// The greatest lead of a unit's slices, the first being taken in this slot.
fn unit_lead(unit: UnitShape, rate: Rate, slot: u128, most: u64) -> u128
    requires allowed { IsUnitAllowed unit }
    requires most { IsGreatest (asked_in unit rate) unit.slices most }
    requires inside { unit.start + shape_length unit ≤ 2 ^ 40 }
    requires slot { slot ≤ 2 ^ 74 }
    ensures { IsGreatest (lead_in unit rate slot) unit.slices result }
{
    if unit.slices == 0 {
        return 0;
    }
    let asked = u128::from(unit.start + unit.head) * u128::from(rate.den) + u128::from(most);
    let given = (slot + u128::from(unit.slices)) * u128::from(rate.num);
    asked.saturating_sub(given)
}

// A unit without slices, whose slices ask for nothing.
const NO_SLICES: UnitShape = UnitShape {
    start: 0,
    head: 0,
    slices: 0,
    a: 1,
    b: 1,
};

// The greatest lead of all slices and the tail. Pictures that are alike are gone through once.
pub(crate) fn lead(shapes: &UnitShapes, rate: Rate, idle: u32) -> u128
    ensures most { IsGreatest (lead_of shapes.now rate idle) (count_in shapes.now) result }
    ensures low { result ≤ 2 ^ 72 }
    ensures in_turn { ShapesInTurn 0 shapes.now.units shapes.now.total }
{
    let total = shapes.total();
    let mut slot = 0u128;
    let mut most = 0u128;
    let mut like = NO_SLICES;
    let mut known = 0u64;
    for i in 0..shapes.len() {
        let unit = shapes.get(i);
        known = asked_like(unit, rate, like, known);
        like = unit;
        most = most.max(unit_lead(unit, rate, slot, known));
        slot += slots_of(unit, idle);
    }
    let asked = u128::from(total) * u128::from(rate.den);
    let given = slot * u128::from(rate.num);
    most.max(asked.saturating_sub(given))
}
