//! Words of idle slots: of `check`, beside a schedule, and of `encode` and `trial`.

/// Idle slots at each place among a schedule's operands; the rest of a schedule that they ask for, also where there are none;
/// a key of no other command, and one that is not quite this one; two wrong words in both orders: the first of them is told,
/// and of a word the key before the value. Then values at their bounds, and those that are none.
pub(crate) const ROWS: &str = "\
Ok(Check(Some(Schedule { rate: Rate { num: 1, den: 2 }, delay: 3, size: 4, idle: 0 })))|check|rate=1/2|delay=3|buffer=4
Ok(Check(Some(Schedule { rate: Rate { num: 1, den: 2 }, delay: 3, size: 4, idle: 0 })))|check|rate=1/2|delay=3|buffer=4|idle=0
Ok(Check(Some(Schedule { rate: Rate { num: 1, den: 2 }, delay: 3, size: 4, idle: 0 })))|check|idle=0|buffer=4|delay=3|rate=1/2
Ok(Check(Some(Schedule { rate: Rate { num: 1, den: 2 }, delay: 3, size: 4, idle: 1048576 })))|check|idle=1048576|rate=1/2|delay=3|buffer=4
Ok(Check(Some(Schedule { rate: Rate { num: 1, den: 2 }, delay: 3, size: 4, idle: 1048576 })))|check|rate=1/2|idle=1048576|delay=3|buffer=4
Ok(Check(Some(Schedule { rate: Rate { num: 1, den: 2 }, delay: 3, size: 4, idle: 1048576 })))|check|rate=1/2|delay=3|idle=1048576|buffer=4
Ok(Check(Some(Schedule { rate: Rate { num: 1, den: 2 }, delay: 3, size: 4, idle: 1048576 })))|check|rate=1/2|delay=3|buffer=4|idle=1048576
Ok(Check(Some(Schedule { rate: Rate { num: 1, den: 2 }, delay: 3, size: 4, idle: 1048576 })))|check|buffer=4|idle=1048576|delay=3|rate=1/2
Ok(Check(Some(Schedule { rate: Rate { num: 1, den: 2 }, delay: 3, size: 4, idle: 1048576 })))|check|delay=3|buffer=4|idle=1048576|rate=1/2
Err(MissingKey(Rate))|check|idle=1
Err(MissingKey(Rate))|check|idle=0
Err(MissingKey(Delay))|check|idle=1|rate=1/1
Err(MissingKey(Rate))|check|idle=1|delay=1
Err(MissingKey(Rate))|check|idle=1|buffer=1
Err(MissingKey(Buffer))|check|rate=1/1|delay=1|idle=1
Err(MissingKey(Delay))|check|rate=1/1|buffer=1|idle=1
Err(MissingKey(Rate))|check|delay=1|buffer=1|idle=1
Err(MissingKey(Buffer))|check|rate=1/1|delay=1|idle=0
Err(UnknownKey(1))|chain|idle=1
Err(UnknownKey(1))|header|idle=1
Err(UnknownKey(1))|decode|idle=1
Err(UnknownKey(1))|check|idle
Err(UnknownKey(1))|check|Idle=1
Err(UnknownKey(1))|check|idles=1
Err(UnknownKey(1))|check| idle=1
Err(UnknownKey(2))|check|idle=1|pictures=1
Err(RepeatedKey(2))|check|idle=1|idle=01
Err(BadValue(1))|check|idle=01|idle=1
Err(BadValue(1))|check|idle=1048577|delay=01
Err(BadValue(1))|check|delay=01|idle=1048577
Err(BadValue(1))|check|idle=1048577|speed=1
Err(UnknownKey(1))|check|speed=1|idle=1048577
Err(RepeatedKey(5))|check|rate=1/1|delay=1|buffer=1|idle=1|idle=1
Err(RepeatedKey(2))|encode|idle=1|idle=1
Err(BadValue(1))|encode|idle=1048577|size=1
Err(BadValue(1))|trial|size=1|idle=1048577
Err(MissingKey(Rate))|check|idle=0
Err(MissingKey(Rate))|check|idle=1
Err(MissingKey(Rate))|check|idle=1048575
Err(MissingKey(Rate))|check|idle=1048576
Err(MissingKey(Size))|encode|idle=0
Err(MissingKey(Size))|encode|idle=1
Err(MissingKey(Size))|encode|idle=1048575
Err(MissingKey(Size))|encode|idle=1048576
Err(MissingKey(Size))|trial|idle=0
Err(MissingKey(Size))|trial|idle=1
Err(MissingKey(Size))|trial|idle=1048575
Err(MissingKey(Size))|trial|idle=1048576
Err(BadValue(1))|check|idle=
Err(BadValue(1))|check|idle=00
Err(BadValue(1))|check|idle=01
Err(BadValue(1))|check|idle=+1
Err(BadValue(1))|check|idle=-1
Err(BadValue(1))|check|idle=-0
Err(BadValue(1))|check|idle=\u{20}
Err(BadValue(1))|check|idle= 1
Err(BadValue(1))|check|idle=1\u{20}
Err(BadValue(1))|check|idle=1_0
Err(BadValue(1))|check|idle=0x1
Err(BadValue(1))|check|idle=1/1
Err(BadValue(1))|check|idle=1=1
Err(BadValue(1))|check|idle=\u{661}
Err(BadValue(1))|check|idle=1\u{0}
Err(BadValue(1))|check|idle=1048577
Err(BadValue(1))|check|idle=4294967295
Err(BadValue(1))|check|idle=4294967296
Err(BadValue(1))|check|idle=18446744073709551617
Err(BadValue(1))|check|idle=1000000000000000000000
Err(BadValue(1))|check|idle=10000000000000000000000
Err(BadValue(1))|encode|idle=
Err(BadValue(1))|encode|idle=00
Err(BadValue(1))|encode|idle=01
Err(BadValue(1))|encode|idle=+1
Err(BadValue(1))|encode|idle=-1
Err(BadValue(1))|encode|idle=-0
Err(BadValue(1))|encode|idle=\u{20}
Err(BadValue(1))|encode|idle= 1
Err(BadValue(1))|encode|idle=1\u{20}
Err(BadValue(1))|encode|idle=1_0
Err(BadValue(1))|encode|idle=0x1
Err(BadValue(1))|encode|idle=1/1
Err(BadValue(1))|encode|idle=1=1
Err(BadValue(1))|encode|idle=\u{661}
Err(BadValue(1))|encode|idle=1\u{0}
Err(BadValue(1))|encode|idle=1048577
Err(BadValue(1))|encode|idle=4294967295
Err(BadValue(1))|encode|idle=4294967296
Err(BadValue(1))|encode|idle=18446744073709551617
Err(BadValue(1))|encode|idle=1000000000000000000000
Err(BadValue(1))|encode|idle=10000000000000000000000
Err(BadValue(1))|trial|idle=
Err(BadValue(1))|trial|idle=00
Err(BadValue(1))|trial|idle=01
Err(BadValue(1))|trial|idle=+1
Err(BadValue(1))|trial|idle=-1
Err(BadValue(1))|trial|idle=-0
Err(BadValue(1))|trial|idle=\u{20}
Err(BadValue(1))|trial|idle= 1
Err(BadValue(1))|trial|idle=1\u{20}
Err(BadValue(1))|trial|idle=1_0
Err(BadValue(1))|trial|idle=0x1
Err(BadValue(1))|trial|idle=1/1
Err(BadValue(1))|trial|idle=1=1
Err(BadValue(1))|trial|idle=\u{661}
Err(BadValue(1))|trial|idle=1\u{0}
Err(BadValue(1))|trial|idle=1048577
Err(BadValue(1))|trial|idle=4294967295
Err(BadValue(1))|trial|idle=4294967296
Err(BadValue(1))|trial|idle=18446744073709551617
Err(BadValue(1))|trial|idle=1000000000000000000000
Err(BadValue(1))|trial|idle=10000000000000000000000
";
