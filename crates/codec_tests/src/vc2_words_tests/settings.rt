//! The settings that words of `encode` and `trial` ask for, and the rules that they break.

use crate::told::{assert_same, assert_told, behind};
use crate::vc2_words_tests::{Answer, read};
use channel_schedule::Rate;
use sequence_header::RateField;
use std::alloc::Global;
use std::process::Abort;
use vc2_words::{Command, WordFault, later_sequences};

/// The operands that have to be there.
const BASE: &str =
    "size=2x2|sampling=444|fps=25/1|signal=1|wavelet=legall|depth=1|slices=1x1|bytes=5/1|matrix=0,0,0,0";

/// Operands beside those of the base. One rule is broken, or the bound of one is met; then two rules are broken, and the first
/// of them is told. An odd group stands where pictures are frames, and every other rule of numbers is told before it.
const RULES: &str = "\
Some(Ok((Index(3), 0, Rate { num: 26, den: 1 }, 0, None)))|encode
Some(Err(SettingsRefused(Size)))|encode|size=0x2
Some(Err(SettingsRefused(Size)))|encode|size=2x0
Some(Ok((Index(3), 0, Rate { num: 26, den: 1 }, 0, None)))|encode|size=8192x2048
Some(Err(SettingsRefused(Size)))|encode|size=8193x2
Some(Err(SettingsRefused(Size)))|encode|size=2x8193
Some(Err(SettingsRefused(Size)))|encode|size=8192x2049
Some(Ok((Index(3), 0, Rate { num: 26, den: 1 }, 0, None)))|encode|size=1x1
Some(Err(SettingsRefused(Divide)))|encode|size=3x2|sampling=422
Some(Ok((Index(3), 0, Rate { num: 26, den: 1 }, 0, None)))|encode|size=2x3|sampling=422
Some(Err(SettingsRefused(Divide)))|encode|size=3x2|sampling=420
Some(Err(SettingsRefused(Divide)))|encode|size=2x3|sampling=420
Some(Err(SettingsRefused(Divide)))|encode|size=2x3|fields=yes
Some(Err(SettingsRefused(Divide)))|encode|sampling=420|fields=yes
Some(Ok((Index(3), 0, Rate { num: 26, den: 1 }, 0, None)))|encode|size=2x4|sampling=420|fields=yes
Some(Err(SettingsRefused(Signal)))|encode|signal=0,0,0,1
Some(Err(SettingsRefused(Signal)))|encode|signal=0,1,0,0
Some(Ok((Index(3), 0, Rate { num: 26, den: 1 }, 0, None)))|encode|signal=0,65535,0,65535
Some(Ok((Index(3), 0, Rate { num: 26, den: 1 }, 0, None)))|encode|signal=4294967295,1,4294967295,1
Some(Err(SettingsRefused(Signal)))|encode|signal=0,65536,0,1
Some(Err(SettingsRefused(Signal)))|encode|signal=0,1,0,65536
Some(Ok((Index(3), 0, Rate { num: 27, den: 1 }, 0, None)))|encode|depth=4|matrix=0,0,0,0,0,0,0,0,0,0,0,0,0
Some(Err(SettingsRefused(Depth)))|encode|depth=5
Some(Err(SettingsRefused(Slices)))|encode|slices=0x1
Some(Err(SettingsRefused(Slices)))|encode|slices=1x0
Some(Ok((Index(3), 0, Rate { num: 5242905, den: 1048576 }, 0, None)))|encode|slices=8192x128
Some(Err(SettingsRefused(Slices)))|encode|slices=8193x1
Some(Err(SettingsRefused(Slices)))|encode|slices=1x8193
Some(Err(SettingsRefused(Slices)))|encode|slices=1024x1025
Some(Err(SettingsRefused(Share)))|encode|bytes=1/0
Some(Err(SettingsRefused(Share)))|encode|bytes=0/1
Some(Err(SettingsRefused(Share)))|encode|bytes=2/3
Some(Ok((Index(3), 0, Rate { num: 22, den: 1 }, 0, None)))|encode|bytes=3/3
Some(Ok((Index(3), 0, Rate { num: 268435483, den: 1 }, 0, None)))|encode|bytes=268435456/1
Some(Err(SettingsRefused(Share)))|encode|bytes=268435457/1
Some(Err(SettingsRefused(MatrixCount)))|encode|matrix=0,0,0
Some(Err(SettingsRefused(MatrixCount)))|encode|matrix=0,0,0,0,0
Some(Err(SettingsRefused(FirstOdd)))|encode|fields=yes|first=1
Some(Ok((Index(3), 4294967294, Rate { num: 26, den: 1 }, 0, None)))|encode|first=4294967294|fields=yes
Some(Ok((Index(3), 1, Rate { num: 26, den: 1 }, 0, None)))|encode|first=1|fields=no
Some(Ok((Index(3), 0, Rate { num: 1, den: 4294967295 }, 0, None)))|encode|rate=1/4294967295|scan=1
Some(Err(SettingsRefused(Size)))|encode|size=0x3|sampling=420
Some(Err(SettingsRefused(Divide)))|encode|size=2x3|signal=0,0,0,0|fields=yes
Some(Err(SettingsRefused(Signal)))|encode|signal=0,0,0,0|depth=5
Some(Err(SettingsRefused(Depth)))|encode|depth=5|slices=0x1
Some(Err(SettingsRefused(Slices)))|encode|slices=0x1|bytes=1/0
Some(Err(SettingsRefused(Share)))|encode|bytes=1/0|matrix=0
Some(Err(SettingsRefused(MatrixCount)))|encode|matrix=0|first=1|fields=yes
Some(Err(SettingsRefused(Size)))|encode|size=8193x2|first=1|fields=yes
Some(Ok((Index(3), 0, Rate { num: 26, den: 1 }, 0, Some(1))))|encode|group=1
Some(Ok((Index(3), 0, Rate { num: 26, den: 1 }, 0, Some(3))))|encode|fields=no|group=3
Some(Ok((Index(3), 0, Rate { num: 26, den: 1 }, 0, Some(2))))|encode|fields=yes|group=2
Some(Ok((Index(3), 0, Rate { num: 26, den: 1 }, 0, Some(4294967294))))|encode|group=4294967294|fields=yes
Some(Err(SettingsRefused(GroupOdd)))|encode|fields=yes|group=1
Some(Err(SettingsRefused(GroupOdd)))|encode|group=3|fields=yes
Some(Err(SettingsRefused(GroupOdd)))|encode|group=4294967295|fields=yes
Some(Err(SettingsRefused(FirstOdd)))|encode|group=3|fields=yes|first=1
Some(Err(SettingsRefused(MatrixCount)))|encode|matrix=0|group=3|fields=yes
Some(Err(SettingsRefused(Divide)))|encode|size=2x3|group=3|fields=yes
";

/// A header unit of the base and an end unit have 30 bytes together. With these bytes of a slice a unit of the base has 2684354
/// bytes, and 100 of them leave 56 bytes: so one sequence fits into 2^28 bytes, and two do not. Or it has 268435 bytes, and 1000
/// of them leave 456: 15 sequences fit, and 16 do not.
const TRIALS: &str = "\
Some(Ok((Index(3), 0, Rate { num: 26, den: 1 }, 0, Some(1))))|trial|bytes=5/1|seed=0|pictures=1|group=1
Some(Ok((Index(3), 0, Rate { num: 26, den: 1 }, 0, Some(1))))|trial|bytes=5/1|seed=0|pictures=1000|group=1
Some(Ok((Index(3), 0, Rate { num: 2684354, den: 1 }, 0, None)))|trial|bytes=2684329/1|seed=0|pictures=100
Some(Ok((Index(3), 0, Rate { num: 2684354, den: 1 }, 0, Some(100))))|trial|bytes=2684329/1|seed=0|pictures=100|group=100
Some(Ok((Index(3), 0, Rate { num: 2684354, den: 1 }, 0, Some(4294967295))))|trial|bytes=2684329/1|seed=0|group=4294967295|pictures=100
Some(Err(SettingsRefused(TrialSize)))|trial|bytes=2684329/1|seed=0|pictures=100|group=99
Some(Err(SettingsRefused(TrialSize)))|trial|bytes=2684329/1|seed=0|group=1|pictures=100
Some(Ok((Index(3), 0, Rate { num: 268435, den: 1 }, 0, Some(67))))|trial|bytes=268410/1|seed=0|pictures=1000|group=67
Some(Err(SettingsRefused(TrialSize)))|trial|bytes=268410/1|seed=0|pictures=1000|group=66
Some(Ok((Index(3), 0, Rate { num: 26, den: 1 }, 0, Some(2))))|trial|bytes=5/1|seed=0|pictures=4|group=2|fields=yes
Some(Err(SettingsRefused(GroupOdd)))|trial|bytes=5/1|seed=0|pictures=4|group=3|fields=yes
Some(Err(SettingsRefused(FieldCount)))|trial|bytes=5/1|seed=0|pictures=3|group=3|fields=yes
Some(Err(SettingsRefused(FieldCount)))|trial|bytes=5/1|seed=0|pictures=3|group=2|fields=yes
Some(Err(SettingsRefused(GroupOdd)))|trial|bytes=2684329/1|seed=0|pictures=100|group=3|fields=yes
";

/// Frame rates and their fields of the header; then idle slots, rates and groups. A picture unit of the base has 26 bytes:
/// behind its 13 of a head 4 for the number, 4 of parameters and 5 of its slice. With 1048576 slices of one byte each it has
/// 1048601.
const SETTINGS: &str = "\
Some(Ok((Index(1), 0, Rate { num: 26, den: 1 }, 0, None)))|encode|fps=24000/1001
Some(Ok((Index(2), 0, Rate { num: 26, den: 1 }, 0, None)))|encode|fps=24/1
Some(Ok((Index(3), 0, Rate { num: 26, den: 1 }, 0, None)))|encode|fps=25/1
Some(Ok((Index(4), 0, Rate { num: 26, den: 1 }, 0, None)))|encode|fps=30000/1001
Some(Ok((Index(5), 0, Rate { num: 26, den: 1 }, 0, None)))|encode|fps=30/1
Some(Ok((Index(6), 0, Rate { num: 26, den: 1 }, 0, None)))|encode|fps=50/1
Some(Ok((Index(7), 0, Rate { num: 26, den: 1 }, 0, None)))|encode|fps=60000/1001
Some(Ok((Index(8), 0, Rate { num: 26, den: 1 }, 0, None)))|encode|fps=60/1
Some(Ok((Pair(50, 2), 0, Rate { num: 26, den: 1 }, 0, None)))|encode|fps=50/2
Some(Ok((Pair(1, 25), 0, Rate { num: 26, den: 1 }, 0, None)))|encode|fps=1/25
Some(Ok((Pair(4294967295, 1), 0, Rate { num: 26, den: 1 }, 0, None)))|encode|fps=4294967295/1
Some(Ok((Index(3), 0, Rate { num: 26, den: 1 }, 0, None)))|encode
Some(Ok((Index(3), 0, Rate { num: 26, den: 1 }, 0, None)))|encode|idle=0
Some(Ok((Index(3), 0, Rate { num: 26, den: 2 }, 1, None)))|encode|idle=1
Some(Ok((Index(3), 0, Rate { num: 26, den: 4 }, 3, None)))|encode|idle=3
Some(Ok((Index(3), 0, Rate { num: 26, den: 1048577 }, 1048576, None)))|encode|idle=1048576
Some(Ok((Index(3), 0, Rate { num: 5, den: 6 }, 3, None)))|encode|idle=3|rate=5/6
Some(Ok((Index(3), 0, Rate { num: 4294967295, den: 1 }, 1048576, None)))|encode|rate=4294967295/1|idle=1048576
Some(Ok((Index(3), 0, Rate { num: 1048601, den: 2097152 }, 1048576, None)))|encode|slices=8192x128|bytes=1/1|idle=1048576
Some(Ok((Index(3), 0, Rate { num: 26, den: 1 }, 0, Some(1))))|encode|group=1
Some(Ok((Index(3), 3, Rate { num: 26, den: 3 }, 2, Some(7))))|encode|idle=2|group=7|first=3
Some(Ok((Index(3), 0, Rate { num: 26, den: 1 }, 0, Some(6))))|encode|group=6|fields=yes
Some(Ok((Index(3), 0, Rate { num: 26, den: 1 }, 0, Some(4294967295))))|encode|group=4294967295
";

/// The frame rate of settings, their first number, rate, idle slots and group.
type Seen = (RateField, u32, Rate, u32, Option<u32>);

/// What is seen of settings, or why there are none; nothing, where another command is read.
fn seen(answer: Answer) -> Option<Result<Seen, WordFault>> {
    let settings = match answer {
        Ok(Command::Encode(settings)) => settings,
        Ok(Command::Trial(settings, _)) => settings,
        Ok(_) => return None,
        Err(fault) => return Some(Err(fault)),
    };
    Some(Ok((
        settings.header.parts().rate,
        settings.first,
        settings.rate,
        settings.idle,
        settings.group,
    )))
}

/// Asserts what each row tells of settings.
fn expect_settings(rt: &impl Abort, alloc: Global, rows: &str) {
    for row in rows.lines() {
        let found = seen(read(rt, alloc, behind(rt, row), BASE));
        assert_told(rt, row, found);
    }
}

#[test]
fn settings_and_rules(rt: HostRuntime) {
    expect_settings(&rt, rt.alloc(), RULES);
    expect_settings(&rt, rt.alloc(), TRIALS);
    expect_settings(&rt, rt.alloc(), SETTINGS);
}

/// A group, a number of pictures, and how many sequences begin behind the first.
const LATER: [(Option<u32>, u32, u32); 13] = [
    (None, 0, 0),
    (None, 4294967295, 0),
    (Some(0), 5, 0),
    (Some(1), 0, 0),
    (Some(1), 1, 0),
    (Some(1), 2, 1),
    (Some(1), 4294967295, 4294967294),
    (Some(3), 3, 0),
    (Some(3), 4, 1),
    (Some(3), 6, 1),
    (Some(3), 7, 2),
    (Some(4294967295), 4294967295, 0),
    (Some(4294967294), 4294967295, 1),
];

#[test]
fn sequences_behind_the_first(rt: HostRuntime) {
    for row in &LATER {
        assert_same(&rt, (row.0, row.1, later_sequences(row.0, row.1)), *row);
    }
}
