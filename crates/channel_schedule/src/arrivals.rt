// The bytes that have arrived.
ghost use Rattle.std.specs.Prelude.{◌≡◌, ◌^◌, ◌≤◌};
ghost use Rattle.channel_schedule.specs.Slices.{arrived};
ghost use Rattle.channel_schedule.specs.Stepping.{Arrives};

use crate::schedule::Rate;
use crate::stepped_quotient::SteppedQuotient;

// After so many slots.
pub(crate) fn arrived(total: u64, rate: Rate, slots: u128) -> u64
    requires rate { 1 ≤ rate.den }
    requires slots { slots ≤ 2 ^ 74 }
    ensures { result ≡ arrived total rate slots }
{
    let quotient = slots * u128::from(rate.num) / u128::from(rate.den);
    quotient.min(u128::from(total)) as u64
}

// After so many slots, and then slot by slot.
pub(crate) fn arriving(total: u64, rate: Rate, slots: u128) -> SteppedQuotient
    requires rate { 1 ≤ rate.den }
    requires slots { slots ≤ 2 ^ 74 }
    ensures at { Arrives result total rate slots }
    ensures low { result.quotient ≤ total }
{
    let product = slots * u128::from(rate.num);
    let den = u128::from(rate.den);
    let quotient = (product / den).min(u128::from(total)) as u64;
    let remainder = (product % den) as u64;
    SteppedQuotient::new(quotient, remainder, rate.num, rate.den)
}
