// The codes of small values, by a look-up.

ghost use Rattle.std.specs.Prelude.{◌≡◌, ◌<◌, ◌-ℤ◌, pos, unsigned_abs};
ghost use Rattle.slice_encoder.specs.ShortTexts.{IsTextOf};

use crate::code_texts::Text;

// The codes of the values from -32 to 31.
#[rattlefmt::skip]
static SHORT_TEXTS: [Text; 64] = [
    Text { number: 7, length: 12 }, Text { number: 3, length: 12 }, Text { number: 343, length: 10 }, Text { number: 339, length: 10 },
    Text { number: 327, length: 10 }, Text { number: 323, length: 10 }, Text { number: 279, length: 10 }, Text { number: 275, length: 10 },
    Text { number: 263, length: 10 }, Text { number: 259, length: 10 }, Text { number: 87, length: 10 }, Text { number: 83, length: 10 },
    Text { number: 71, length: 10 }, Text { number: 67, length: 10 }, Text { number: 23, length: 10 }, Text { number: 19, length: 10 },
    Text { number: 7, length: 10 }, Text { number: 3, length: 10 }, Text { number: 87, length: 8 }, Text { number: 83, length: 8 },
    Text { number: 71, length: 8 }, Text { number: 67, length: 8 }, Text { number: 23, length: 8 }, Text { number: 19, length: 8 },
    Text { number: 7, length: 8 }, Text { number: 3, length: 8 }, Text { number: 23, length: 6 }, Text { number: 19, length: 6 },
    Text { number: 7, length: 6 }, Text { number: 3, length: 6 }, Text { number: 7, length: 4 }, Text { number: 3, length: 4 },
    Text { number: 1, length: 1 }, Text { number: 2, length: 4 }, Text { number: 6, length: 4 }, Text { number: 2, length: 6 },
    Text { number: 6, length: 6 }, Text { number: 18, length: 6 }, Text { number: 22, length: 6 }, Text { number: 2, length: 8 },
    Text { number: 6, length: 8 }, Text { number: 18, length: 8 }, Text { number: 22, length: 8 }, Text { number: 66, length: 8 },
    Text { number: 70, length: 8 }, Text { number: 82, length: 8 }, Text { number: 86, length: 8 }, Text { number: 2, length: 10 },
    Text { number: 6, length: 10 }, Text { number: 18, length: 10 }, Text { number: 22, length: 10 }, Text { number: 66, length: 10 },
    Text { number: 70, length: 10 }, Text { number: 82, length: 10 }, Text { number: 86, length: 10 }, Text { number: 258, length: 10 },
    Text { number: 262, length: 10 }, Text { number: 274, length: 10 }, Text { number: 278, length: 10 }, Text { number: 322, length: 10 },
    Text { number: 326, length: 10 }, Text { number: 338, length: 10 }, Text { number: 342, length: 10 }, Text { number: 2, length: 12 },
];

// The code of the value that stands in a place of the table.
#[inline(always)]
fn text_at(place: usize) -> Text
    requires { place < 64 }
    ensures { IsTextOf result (pos place -ℤ pos 32) }
{
    SHORT_TEXTS[place]
}

// The place of a value from -31 to 31 in a row of the tables.
#[inline(always)]
fn place_of(v: i64) -> usize
    requires { unsigned_abs v < 32 }
    ensures value { pos result -ℤ pos 32 ≡ v }
    ensures inside { result < 64 }
{
    (v + 32) as usize
}

/// The code of a value from -31 to 31.
#[inline(always)]
pub fn short_text(v: i64) -> Text
    requires { unsigned_abs v < 32 }
    ensures { IsTextOf result v }
{
    text_at(place_of(v))
}
