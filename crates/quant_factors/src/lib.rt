//! Quantisation: factors and offsets, a number quantised and restored, and the matrix of a picture.
#![tactic(auto)]

ghost use Rattle.std.specs.Prelude.{◌≡◌, ◌*◌, ◌/◌, ◌^◌, ◌<◌, ◌≤◌, MatchOption, unsigned_abs};
ghost use Rattle.quant_factors.specs.Factors.{factor_of, offset_of, restored_of, forward_of, signed, IsDequantised};

pub mod laws;
mod matrix;

use bit_codes::MAX_MAGNITUDE;
pub use matrix::Matrix;

// The factors of the indices 0 to 127, four a row: those of one power of two.
#[rattlefmt::skip]
static FACTORS: [u64; 128] = [
    4, 5, 6, 7,
    8, 10, 11, 13,
    16, 19, 23, 27,
    32, 38, 45, 54,
    64, 76, 91, 108,
    128, 152, 181, 215,
    256, 304, 362, 431,
    512, 609, 724, 861,
    1024, 1218, 1448, 1722,
    2048, 2435, 2896, 3444,
    4096, 4871, 5793, 6889,
    8192, 9742, 11585, 13777,
    16384, 19484, 23170, 27554,
    32768, 38968, 46341, 55109,
    65536, 77936, 92682, 110218,
    131072, 155872, 185364, 220436,
    262144, 311744, 370728, 440872,
    524288, 623487, 741455, 881744,
    1048576, 1246974, 1482910, 1763488,
    2097152, 2493948, 2965821, 3526975,
    4194304, 4987896, 5931642, 7053950,
    8388608, 9975792, 11863283, 14107901,
    16777216, 19951585, 23726566, 28215802,
    33554432, 39903169, 47453133, 56431603,
    67108864, 79806339, 94906266, 112863206,
    134217728, 159612677, 189812531, 225726413,
    268435456, 319225354, 379625062, 451452825,
    536870912, 638450708, 759250125, 902905651,
    1073741824, 1276901417, 1518500250, 1805811301,
    2147483648, 2553802834, 3037000500, 3611622603,
    4294967296, 5107605667, 6074001000, 7223245206,
    8589934592, 10215211334, 12148002000, 14446490411,
];

// For each index 2^64 over its factor, rounded up: a product by it, without its last 64 bits, is a division by the factor.
#[rattlefmt::skip]
static RECIPROCALS: [u64; 128] = [
    4611686018427387904, 3689348814741910324, 3074457345618258603, 2635249153387078803,
    2305843009213693952, 1844674407370955162, 1676976733973595602, 1418980313362273202,
    1152921504606846976, 970881267037344822, 802032351030850071, 683212743470724134,
    576460752303423488, 485440633518672411, 409927646082434481, 341606371735362067,
    288230376151711744, 242720316759336206, 202711473337467601, 170803185867681034,
    144115188075855872, 121360158379668103, 101915713114417413, 85798809645160706,
    72057594037927936, 60680079189834052, 50957856557208707, 42799870240625410,
    36028797018963968, 30290220153874469, 25478928278604354, 21424789864935601,
    18014398509481984, 15145110076937235, 12739464139302177, 10712394932467801,
    9007199254740992, 7575664917334519, 6369732069651089, 5356197466233901,
    4503599627370496, 3787054829338853, 3184316256466348, 2677709983119401,
    2251799813685248, 1893527414669427, 1592295560958961, 1338952172004759,
    1125899906842624, 946763707334714, 796147780479481, 669476086002380,
    562949953421312, 473381853667357, 398065300138313, 334731968892732,
    281474976710656, 236690926833679, 199032650069157, 167365984446366,
    140737488355328, 118345463416840, 99516325034579, 83682992223183,
    70368744177664, 59172731708420, 49758162517290, 41841496111592,
    35184372088832, 29586413307270, 24879114813050, 20920748055796,
    17592186044416, 14793206653635, 12439557406525, 10460374027898,
    8796093022208, 7396603326818, 6219776606110, 5230188496860,
    4398046511104, 3698301663409, 3109888303055, 2615094248430,
    2199023255552, 1849150831705, 1554944282600, 1307547031533,
    1099511627776, 924575369512, 777472141300, 653773515767,
    549755813888, 462287696341, 388736062458, 326886763676,
    274877906944, 231143845275, 194368031229, 163443381838,
    137438953472, 115571923362, 97184016127, 81721690557,
    68719476736, 57785961681, 48592008064, 40860845369,
    34359738368, 28892980841, 24296004000, 20430422662,
    17179869184, 14446490409, 12148002000, 10215211337,
    8589934592, 7223245205, 6074001000, 5107605667,
    4294967296, 3611622603, 3037000500, 2553802834,
    2147483648, 1805811302, 1518500250, 1276901417,
];

/// A dequantised number, or that its magnitude passes 2^36.
#[derive(Clone, Copy, Debug, PartialEq, Eq)]
pub enum Dequantised {
    Is(i64),
    TooLarge,
}

/// The quantisation factor of index i, 0 to 127.
#[inline]
pub fn factor(i: u32) -> u64
    requires { i ≤ 127 }
    ensures value { result ≡ factor_of i }
    ensures least { 4 ≤ result }
    ensures most { result ≤ 2 ^ 34 }
{
    FACTORS[i as usize]
}

/// The quantisation offset of index i, 0 to 127.
#[inline]
#[tactic(auto, unfolding(crate::specs::Factors::offset_of))]
pub fn offset(i: u32) -> u64
    requires { i ≤ 127 }
    ensures value { result ≡ offset_of i }
    ensures most { result ≤ 2 ^ 34 }
{
    match i {
        0 => 1,
        1 => 2,
        _ => factor(i).div_ceil(2),
    }
}

// m with the sign of z.
#[inline]
fn with_sign(z: i64, m: u64) -> i64
    requires { m ≤ 2 ^ 62 }
    ensures { result ≡ signed z m }
{
    if z < 0 { -(m as i64) } else { m as i64 }
}

// What a quantised magnitude is restored to, where that is at most 2^36.
#[inline]
fn restored(magnitude: u64, i: u32) -> Option<u64>
    requires index { i ≤ 127 }
    requires small { magnitude ≤ MAX_MAGNITUDE }
    ensures { MatchOption result (MAX_MAGNITUDE < restored_of magnitude i)
        (λ m. (m ≡ restored_of magnitude i) × (m ≤ MAX_MAGNITUDE)) }
{
    let step = factor(i);
    if magnitude == 0 {
        return Some(0);
    }
    // Only such a product could pass 64 bits.
    if magnitude > 1 << 29 && step >= 1 << 10 {
        return None;
    }
    let whole = (magnitude * step + offset(i) + 2) / 4;
    if whole > MAX_MAGNITUDE {
        None
    } else {
        Some(whole)
    }
}

/// The number that q stands for at index i: 0 for 0, else the sign of q times (|q| * factor + offset + 2) / 4,
/// rounded down. The magnitude of q is at most 2^36, and i is 0 to 127.
#[inline]
pub fn inverse(q: i64, i: u32) -> Dequantised
    requires index { i ≤ 127 }
    requires small { unsigned_abs q ≤ MAX_MAGNITUDE }
    ensures { IsDequantised q i result }
{
    match restored(q.unsigned_abs(), i) {
        Some(magnitude) => Dequantised::Is(with_sign(q, magnitude)),
        None => Dequantised::TooLarge,
    }
}

// 4 * magnitude / factor, rounded down. A product takes a fraction of a division's time, and is as good below 2^28.
#[inline]
fn quantised(magnitude: u64, i: u32) -> u64
    requires index { i ≤ 127 }
    requires small { magnitude ≤ 2 ^ 40 }
    ensures { result ≡ 4 * magnitude / factor_of i }
{
    if magnitude < 1 << 28 {
        let product = u128::from(4 * magnitude) * u128::from(RECIPROCALS[i as usize]);
        (product >> 64) as u64
    } else {
        4 * magnitude / factor(i)
    }
}

/// The sign of c times 4 * |c| / factor, rounded down, at index i. The magnitude of c is at most 2^40, and i is
/// 0 to 127.
#[inline]
#[tactic(auto, unfolding(crate::specs::Factors::forward_of))]
pub fn forward(c: i64, i: u32) -> i64
    requires index { i ≤ 127 }
    requires small { unsigned_abs c ≤ 2 ^ 40 }
    ensures { result ≡ forward_of c i }
{
    with_sign(c, quantised(c.unsigned_abs(), i))
}
