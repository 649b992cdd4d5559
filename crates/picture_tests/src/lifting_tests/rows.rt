//! Lifting steps on rows of many lengths: no place, single ones, whole blocks, and places behind them.

ghost use Rattle.std.specs.Prelude.{◌≡◌, ◌^◌, true};
ghost use Rattle.lifting.specs.Places.{EachWithin};

use crate::checks::assert_same;
use lifting::{OneStep, PairStep, lift_one, lift_one_narrow, lift_pair, lift_pair_narrow};
use std::process::Abort;

/// Three rows of magnitudes up to 2^61.
const WIDE: [[i64; 11]; 3] = [
    [
        -914504932472173084,
        -1860479327596731312,
        2305843009213693952,
        -1770897365340678051,
        -8,
        -2305843009213693951,
        -86118620880303217,
        -2305843009213693951,
        2305843009213693952,
        9,
        -2305843009213693951,
    ],
    [
        -2305843009213693952,
        -2305843009213693952,
        -975324733966077374,
        2305843009213693951,
        -6,
        2,
        2305843009213693952,
        -2305843009213693952,
        1988576215948849903,
        459019537481771352,
        -4,
    ],
    [
        -7,
        2260799331499198241,
        1833921751142952224,
        -1216878412053001522,
        -904033121906657234,
        -1944219907974206359,
        2305843009213693951,
        923982557962231951,
        -1671616765885816982,
        2305843009213693951,
        -1746266335712389454,
    ],
];

/// Three rows of magnitudes up to 2^29.
const NARROW: [[i32; 11]; 3] = [
    [
        420135352, 291609895, -488417405, 226482452, -6, -410267264, 0, -2, 302687182, -363823885,
        5,
    ],
    [
        59784079, 4, 354971558, 280120548, -5, -536870912, -2, -9, -145292569, 68570718, -536870912,
    ],
    [
        256095094, -267379949, -536870911, 317977105, 309495382, -536870911, -403194732, -7, 5, -6,
        -423965650,
    ],
];

/// A step between two neighbours, a step beside one, and what they leave of a row.
type Steps<T> = (PairStep, OneStep, [T; 11], [T; 11]);

const WIDE_STEPS: [Steps<i64>; 4] = [
    (
        PairStep::EvenDown,
        OneStep::EvenDown,
        [
            -338044180168749594,
            -1849218408168107384,
            2091193754919475239,
            -2043138514630851158,
            226008280476664302,
            -1819788032220142362,
            -1239040125487150193,
            -1960377896400828451,
            2226603146697935722,
            -691215636673866317,
            -1869276425285596587,
        ],
        [
            238416572134673892,
            -707557822989884336,
            2793505376196732639,
            -2923818869947525027,
            -5,
            -2305843009213693952,
            -1239040125487150193,
            -1152921504606846975,
            1311554901239269000,
            -229509768740885667,
            -2305843009213693949,
        ],
    ),
    (
        PairStep::OddUp,
        OneStep::OddUp,
        [
            -2067426437079020063,
            -1883001166453979167,
            2735141517802131377,
            -1226415066760331836,
            -452016560953328628,
            -3277952963200797129,
            2219724388333390735,
            -2996773234839424951,
            2464322734245210413,
            1382431273347732661,
            -3178976177069888680,
        ],
        [
            -3220347941685867036,
            -4166322336810425264,
            1330518275247616578,
            534945643873015900,
            -14,
            -2305843009213693949,
            2219724388333390735,
            -4611686018427387903,
            4294419225162543855,
            459019537481771361,
            -2305843009213693955,
        ],
    ),
    (
        PairStep::EvenUp,
        OneStep::EvenUp,
        [
            -1490965684775596574,
            -1871740247025355240,
            2520492263507912665,
            -1498656216050504944,
            -226008280476664318,
            -2791897986207245540,
            1066802883726543759,
            -2651308122026559451,
            2385082871729452182,
            691215636673866335,
            -2742409593141791315,
        ],
        [
            -2067426437079020060,
            -3013400832203578288,
            1818180642230655265,
            -617975860733831075,
            -11,
            -2305843009213693950,
            1066802883726543759,
            -3458764513820540927,
            3300131117188118904,
            229509768740885685,
            -2305843009213693953,
        ],
    ),
    (
        PairStep::OddDown,
        OneStep::OddDown,
        [
            238416572134673895,
            -1837957488739483457,
            1876544500625256527,
            -2315379663921024266,
            452016560953328612,
            -1333733055226590773,
            -2391961630093997169,
            -1614912783587962951,
            2147363284182177491,
            -1382431273347732643,
            -1432709841357499222,
        ],
        [
            1391338076741520868,
            445363681616962640,
            3281167743179771326,
            -4076740374554372002,
            -2,
            -2305843009213693953,
            -2391961630093997169,
            1,
            317266793264844049,
            -459019537481771343,
            -2305843009213693947,
        ],
    ),
];

const NARROW_STEPS: [Steps<i32>; 4] = [
    (
        PairStep::EvenDown,
        OneStep::EvenDown,
        [
            341165559, 358454881, -442942567, 76958039, -77373850, -141831808, 100798683, 2,
            339010323, -380966563, 240209145,
        ],
        [
            390243312, 291609893, -665903184, 86422178, -4, -141831808, 1, 2, 375333466,
            -398109244, 268435461,
        ],
    ),
    (
        PairStep::OddUp,
        OneStep::OddUp,
        [
            578074939, 157919923, -579367081, 525531279, 154747683, -947138175, -201597367, -10,
            230040900, -329538529, -480418276,
        ],
        [
            479919431, 291609899, -133445847, 506603000, -11, -947138176, -2, -11, 157394613,
            -295253167, -536870907,
        ],
    ),
    (
        PairStep::EvenUp,
        OneStep::EvenUp,
        [
            499105145, 224764909, -533892243, 376006865, 77373838, -678702720, -100798683, -6,
            266364041, -346681207, -240209135,
        ],
        [
            450027392, 291609897, -310931626, 366542726, -8, -678702720, -1, -6, 230040898,
            -329538526, -268435451,
        ],
    ),
    (
        PairStep::OddDown,
        OneStep::OddDown,
        [
            262195765, 425299867, -397467729, -72566375, -154747695, 126603647, 201597367, 6,
            375333464, -398109241, 480418286,
        ],
        [
            360351273, 291609891, -843388963, -53638096, -1, 126603648, 2, 7, 447979751,
            -432394603, 536870917,
        ],
    ),
];

// Whether each magnitude is at most 2^61.
fn is_wide(row: &[i64]) -> bool
    ensures { result ≡ true → EachWithin (2 ^ 61) row.now }
{
    for value in row {
        if *value > 0x2000_0000_0000_0000 || *value < -0x2000_0000_0000_0000 {
            return false;
        }
    }
    true
}

// Whether each magnitude is at most 2^29.
fn is_narrow(row: &[i32]) -> bool
    ensures { result ≡ true → EachWithin (2 ^ 29) row.now }
{
    for value in row {
        if *value > 0x2000_0000 || *value < -0x2000_0000 {
            return false;
        }
    }
    true
}

/// How long rows are: blocks of lanes have eight places.
const LENGTHS: [usize; 8] = [0, 1, 7, 8, 9, 15, 16, 17];

/// A row of the places of another one over and over.
fn repeated<T: Copy>(row: &[T; 11]) -> [T; 17] {
    let mut places = [row[0]; 17];
    for x in 0..17 {
        places[x] = row[x % 11];
    }
    places
}

/// Asserts what a step between two neighbours leaves of a row.
fn expect_wide_pair(
    rt: &impl Abort,
    step: PairStep,
    row: &mut [i64],
    a: &[i64],
    b: &[i64],
    left: &[i64],
) {
    assert!(rt; row.len() == a.len() && row.len() == b.len());
    assert!(rt; is_wide(row) && is_wide(a) && is_wide(b));
    lift_pair(row, a, b, step);
    assert_same(rt, &*row, left);
}

fn expect_narrow_pair(
    rt: &impl Abort,
    step: PairStep,
    row: &mut [i32],
    a: &[i32],
    b: &[i32],
    left: &[i32],
) {
    assert!(rt; row.len() == a.len() && row.len() == b.len());
    assert!(rt; is_narrow(row) && is_narrow(a) && is_narrow(b));
    lift_pair_narrow(row, a, b, step);
    assert_same(rt, &*row, left);
}

/// The same beside one neighbour.
fn expect_wide_one(rt: &impl Abort, step: OneStep, row: &mut [i64], a: &[i64], left: &[i64]) {
    assert!(rt; row.len() == a.len() && is_wide(row) && is_wide(a));
    lift_one(row, a, step);
    assert_same(rt, &*row, left);
}

fn expect_narrow_one(rt: &impl Abort, step: OneStep, row: &mut [i32], a: &[i32], left: &[i32]) {
    assert!(rt; row.len() == a.len() && is_narrow(row) && is_narrow(a));
    lift_one_narrow(row, a, step);
    assert_same(rt, &*row, left);
}

/// Asserts what steps leave of rows of a length.
fn expect_wide(rt: &impl Abort, steps: &Steps<i64>, len: usize) {
    assert!(rt; len <= 17);
    let (pair, one, between, beside) = steps;
    let (a, b) = (repeated(&WIDE[1]), repeated(&WIDE[2]));
    let (between, beside) = (repeated(between), repeated(beside));
    let mut row = repeated(&WIDE[0]);
    expect_wide_pair(
        rt,
        *pair,
        &mut row[..len],
        &a[..len],
        &b[..len],
        &between[..len],
    );
    let mut row = repeated(&WIDE[0]);
    expect_wide_one(rt, *one, &mut row[..len], &a[..len], &beside[..len]);
}

fn expect_narrow(rt: &impl Abort, steps: &Steps<i32>, len: usize) {
    assert!(rt; len <= 17);
    let (pair, one, between, beside) = steps;
    let (a, b) = (repeated(&NARROW[1]), repeated(&NARROW[2]));
    let (between, beside) = (repeated(between), repeated(beside));
    let mut row = repeated(&NARROW[0]);
    expect_narrow_pair(
        rt,
        *pair,
        &mut row[..len],
        &a[..len],
        &b[..len],
        &between[..len],
    );
    let mut row = repeated(&NARROW[0]);
    expect_narrow_one(rt, *one, &mut row[..len], &a[..len], &beside[..len]);
}

/// Rows of 15 places and more have all eleven.
#[test]
fn wide_rows_of_each_length(rt: HostRuntime) {
    for len in &LENGTHS {
        for steps in &WIDE_STEPS {
            expect_wide(&rt, steps, *len);
        }
    }
}

#[test]
fn narrow_rows_of_each_length(rt: HostRuntime) {
    for len in &LENGTHS {
        for steps in &NARROW_STEPS {
            expect_narrow(&rt, steps, *len);
        }
    }
}
