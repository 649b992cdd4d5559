// A quotient that rises by steps of one size, without a division at each.
ghost use Rattle.std.specs.Prelude.{ℕ, ◌+◌, ◌*◌, ◌<◌, ◌≤◌};
ghost use Rattle.channel_schedule.specs.Stepping.{IsAt, CanStep};

// The quotient and the remainder of a number by `den`, and those of a step.
#[derive(Clone, Copy)]
pub(crate) struct SteppedQuotient {
    pub(crate) quotient: u64,
    remainder: u64,
    step_quotient: u64,
    step_remainder: u64,
    den: u64,
}

impl SteppedQuotient {
    // Begins at a number, by its quotient and remainder, with steps of num.
    #[inline(always)]
    pub(crate) fn new(quotient: u64, remainder: u64, num: u32, den: u32) -> SteppedQuotient
        requires some { 1 ≤ den }
        requires low { remainder < den }
        ensures { IsAt result num den (quotient * den + remainder) }
    {
        SteppedQuotient {
            quotient,
            remainder,
            step_quotient: u64::from(num / den),
            step_remainder: u64::from(num % den),
            den: u64::from(den),
        }
    }

    // One step up.
    #[inline(always)]
    pub(crate) fn next(self) -> SteppedQuotient
        requires { CanStep self }
        ensures at { (num den number : ℕ) → IsAt self num den number
            → IsAt result num den (number + num) }
        ensures high { result.quotient ≤ self.quotient + self.step_quotient + 1 }
    {
        let remainder = self.remainder + self.step_remainder;
        if remainder < self.den {
            SteppedQuotient {
                quotient: self.quotient + self.step_quotient,
                remainder,
                step_quotient: self.step_quotient,
                step_remainder: self.step_remainder,
                den: self.den,
            }
        } else {
            SteppedQuotient {
                quotient: self.quotient + self.step_quotient + 1,
                remainder: remainder - self.den,
                step_quotient: self.step_quotient,
                step_remainder: self.step_remainder,
                den: self.den,
            }
        }
    }
}
