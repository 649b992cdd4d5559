// The codes of values as numbers, digit by digit.

ghost use Rattle.std.specs.Prelude.{◌≡◌, ◌+◌, ◌-◌, ◌*◌, ◌^◌, ◌<◌, ◌≤◌, ◌++◌, unsigned_abs};
ghost use Rattle.bit_codes.specs.Bits.{digits_below};
ghost use Rattle.bit_codes.specs.Codes.{interleaved, code_of, signed_code_of};
ghost use Rattle.bounded_blocks.specs.Parts.{IsSmall};
ghost use Rattle.slice_encoder.specs.CodeTexts.{IsSplitCode};

/// The last `length` binary digits of a number are a text.
#[derive(Clone, Copy)]
pub struct Text {
    pub number: u64,
    pub length: u32,
}

/// A code in two texts, since it may have more digits than a number.
#[derive(Clone, Copy)]
pub struct SplitText {
    pub front: Text,
    pub back: Text,
}

// The most digits of a magnitude that stand in the second text.
const LOW_DIGITS: u32 = 11;

// The digits of a number below place `from`, down to place `to`, with a zero in front of each.
fn spread(number: u64, from: u32, to: u32) -> u64
    requires order { to ≤ from }
    requires few { from ≤ to + 25 }
    requires inside { from ≤ 63 }
    ensures text { digits_below (2 * (from - to)) result ++ interleaved (digits_below to number)
        ≡ interleaved (digits_below from number) }
    ensures small { result < 2 ^ (2 * (from - to)) }
{
    let mut text = 0;
    let mut left = from;
    while left > to {
        left -= 1;
        text = 4 * text + (number >> left & 1);
    }
    text
}

// The last digit of the code of a value that isn't 0.
#[inline(always)]
fn sign_digit(v: i64) -> u64
    requires { 1 ≤ unsigned_abs v }
    ensures small { result < 2 }
    ensures digit { code_of (unsigned_abs v) ++ digits_below 1 result ≡ signed_code_of v }
{
    if v < 0 { 1 } else { 0 }
}

/// The code of a value.
pub fn split_text(v: i64) -> SplitText
    requires { IsSmall v }
    ensures code { IsSplitCode result v }
    ensures front { result.front.length ≤ 50 }
    ensures back { result.back.length ≤ 24 }
    ensures one { unsigned_abs v < 2 ^ 11 → result.front.length ≡ 0 }
    ensures short { unsigned_abs v < 32 → result.back.length ≤ 12 }
{
    let number = v.unsigned_abs() + 1;
    let digits = number.ilog2();
    let low = digits.min(LOW_DIGITS);
    let front = Text {
        number: spread(number, digits, low),
        length: 2 * (digits - low),
    };
    let text = 2 * spread(number, low, 0) + 1;
    let length = 2 * low + 1;
    if v == 0 {
        let back = Text {
            number: text,
            length,
        };
        return SplitText { front, back };
    }
    let back = Text {
        number: 2 * text + sign_digit(v),
        length: length + 1,
    };
    SplitText { front, back }
}
