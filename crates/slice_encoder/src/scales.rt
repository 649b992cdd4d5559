// A magnitude quantised by one product of 32 by 32 bits. With no wider product and no branch in it, a loop over coefficients
// goes on several at a time.

ghost use Rattle.std.specs.Prelude.{◌≡◌, ◌*◌, ◌/◌, ◌^◌, ◌<◌, ◌≤◌, pos, unsigned_abs};
ghost use Rattle.planes.specs.Numbers.{Within};
ghost use Rattle.quant_factors.specs.Factors.{factor_of, forward_of};
ghost use Rattle.slice_encoder.specs.Scales.{IsScaleOf};

/// A number over a power of two, for four over a factor.
#[derive(Clone, Copy)]
pub struct Scale {
    pub number: u32,
    pub shift: u32,
}

// The numbers of the scales of the indices 0 to 127, four a row: those with one shift.
#[rattlefmt::skip]
static SCALES: [u32; 128] = [
    2147483648, 1717986919, 1431655766, 1227133514,
    2147483648, 1717986919, 1561806290, 1321528399,
    2147483648, 1808407283, 1493901669, 1272582903,
    2147483648, 1808407283, 1527099484, 1272582903,
    2147483648, 1808407283, 1510318171, 1272582903,
    2147483648, 1808407283, 1518662470, 1278501893,
    2147483648, 1808407283, 1518662470, 1275535532,
    2147483648, 1805437813, 1518662470, 1277016990,
    2147483648, 1805437813, 1518662470, 1277016990,
    2147483648, 1806179266, 1518662470, 1277016990,
    2147483648, 1805808463, 1518400315, 1276831619,
    2147483648, 1805808463, 1518531381, 1276924298,
    2147483648, 1805808463, 1518531381, 1276924298,
    2147483648, 1805808463, 1518498612, 1276901127,
    2147483648, 1805808463, 1518498612, 1276901127,
    2147483648, 1805808463, 1518498612, 1276901127,
    2147483648, 1805808463, 1518498612, 1276901127,
    2147483648, 1805811360, 1518500660, 1276901127,
    2147483648, 1805811360, 1518500660, 1276901127,
    2147483648, 1805811360, 1518500148, 1276901489,
    2147483648, 1805811360, 1518500148, 1276901489,
    2147483648, 1805811360, 1518500276, 1276901398,
    2147483648, 1805811269, 1518500276, 1276901398,
    2147483648, 1805811314, 1518500244, 1276901421,
    2147483648, 1805811292, 1518500244, 1276901421,
    2147483648, 1805811303, 1518500252, 1276901415,
    2147483648, 1805811303, 1518500252, 1276901418,
    2147483648, 1805811303, 1518500250, 1276901417,
    2147483648, 1805811302, 1518500250, 1276901418,
    2147483648, 1805811302, 1518500250, 1276901417,
    2147483648, 1805811302, 1518500250, 1276901417,
    2147483648, 1805811302, 1518500250, 1276901417,
];

/// The scale of an index.
#[inline(always)]
pub fn scale_of(index: u32) -> Scale
    requires { index ≤ 127 }
    ensures { IsScaleOf result index }
{
    Scale {
        number: SCALES[index as usize],
        shift: 31 + index / 4,
    }
}

// 4 * magnitude / factor, rounded down.
#[inline(always)]
fn scaled(magnitude: u32, scale: Scale, index: u32) -> u64
    requires index { index ≤ 127 }
    requires small { magnitude < 2 ^ 28 }
    requires scale { IsScaleOf scale index }
    ensures { result ≡ 4 * magnitude / factor_of index }
{
    // The contract alone names it.
    let _ = index;
    (u64::from(magnitude) * u64::from(scale.number)) >> scale.shift
}

/// The magnitude of a coefficient, quantised.
#[inline(always)]
pub fn quantised_magnitude(coefficient: i32, scale: Scale, index: u32) -> i64
    requires index { index ≤ 127 }
    requires small { Within (2 ^ 27) coefficient }
    requires scale { IsScaleOf scale index }
    ensures { result ≡ forward_of (pos (unsigned_abs coefficient)) index }
{
    scaled(coefficient.unsigned_abs(), scale, index) as i64
}
