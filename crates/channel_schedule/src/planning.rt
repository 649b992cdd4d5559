// The least schedule at a rate.
ghost use Rattle.std.specs.Prelude.{◌≡◌};
ghost use Rattle.channel_schedule.specs.Plans.{IsPlan, plan_of};
ghost use Rattle.channel_schedule.specs.Rates.{IsRate, IsSchedule};

use crate::fill::fill;
use crate::lead::lead;
use crate::schedule::{Rate, Schedule};
use slice_geometry::UnitShapes;

/// The least schedule at a rate, with so many idle slots behind each picture: the least delay with which each slice is
/// there when it is taken, and the most bytes that are held with it.
pub fn plan(shapes: &UnitShapes, rate: Rate, idle: u32) -> Schedule
    requires { IsRate rate }
    ensures schedule { IsSchedule result }
    ensures plan { IsPlan shapes.now rate idle result.delay result.size }
    ensures value { result ≡ plan_of shapes.now rate idle }
{
    let delay = lead(shapes, rate, idle).div_ceil(u128::from(rate.num));
    let size = fill(shapes, rate, idle, delay);
    Schedule {
        rate,
        delay,
        size,
        idle,
    }
}
