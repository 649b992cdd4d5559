//! Words of commands, and of `check` with a schedule.

/// Commands, the operands of a schedule in each order, keys that are none of `check`, keys that are missing, and two wrong
/// words in both orders: the first of them is told, and of a word the key before the value. Then the values of each number at
/// its bounds; and below and above them, and in each form that is not quite a number.
pub(crate) const ROWS: &str = "\
Err(UnknownCommand)|
Err(UnknownCommand)|Check
Err(UnknownCommand)|check\u{20}
Err(UnknownCommand)|checks
Err(UnknownCommand)|\u{0}
Err(UnknownCommand)|check\u{FFFD}
Err(UnknownCommand)|rate=1/1|check
Ok(Chain)|chain
Ok(Header)|header
Ok(Decode)|decode
Ok(Check(None))|check
Err(UnknownKey(1))|chain|
Err(UnknownKey(1))|header|rate=1/1
Err(UnknownKey(1))|decode|decode
Ok(Check(Some(Schedule { rate: Rate { num: 1, den: 2 }, delay: 0, size: 0, idle: 0 })))|check|rate=1/2|delay=0|buffer=0
Ok(Check(Some(Schedule { rate: Rate { num: 1, den: 2 }, delay: 0, size: 0, idle: 0 })))|check|rate=1/2|buffer=0|delay=0
Ok(Check(Some(Schedule { rate: Rate { num: 1, den: 2 }, delay: 0, size: 0, idle: 0 })))|check|delay=0|rate=1/2|buffer=0
Ok(Check(Some(Schedule { rate: Rate { num: 1, den: 2 }, delay: 0, size: 0, idle: 0 })))|check|delay=0|buffer=0|rate=1/2
Ok(Check(Some(Schedule { rate: Rate { num: 1, den: 2 }, delay: 0, size: 0, idle: 0 })))|check|buffer=0|rate=1/2|delay=0
Ok(Check(Some(Schedule { rate: Rate { num: 1, den: 2 }, delay: 0, size: 0, idle: 0 })))|check|buffer=0|delay=0|rate=1/2
Ok(Check(Some(Schedule { rate: Rate { num: 4294967295, den: 4294967294 }, delay: 4722366482869645213696, size: 1099511627776, idle: 0 })))|check|rate=4294967295/4294967294|delay=4722366482869645213696|buffer=1099511627776
Err(UnknownKey(1))|check|
Err(UnknownKey(1))|check|=
Err(UnknownKey(1))|check|rate
Err(UnknownKey(1))|check|=1/1
Err(UnknownKey(1))|check|Rate=1/1
Err(UnknownKey(1))|check| rate=1/1
Err(UnknownKey(1))|check|rate =1/1
Err(UnknownKey(1))|check|rates=1/1
Err(UnknownKey(2))|check|delay=1|first=1
Err(MissingKey(Delay))|check|rate=1/1
Err(MissingKey(Rate))|check|delay=1
Err(MissingKey(Rate))|check|buffer=1
Err(MissingKey(Buffer))|check|delay=1|rate=1/1
Err(MissingKey(Delay))|check|buffer=1|rate=1/1
Err(MissingKey(Rate))|check|delay=1|buffer=1
Err(MissingKey(Rate))|check|buffer=1|delay=1
Err(BadValue(1))|check|rate=01/1|delay=01
Err(BadValue(1))|check|delay=01|rate=01/1
Err(UnknownKey(1))|check|speed=1|delay=01
Err(BadValue(1))|check|delay=01|speed=1
Err(RepeatedKey(2))|check|delay=1|delay=01
Err(BadValue(1))|check|delay=01|delay=1
Err(RepeatedKey(2))|check|delay=1|delay=1|rate=0/1
Err(BadValue(2))|check|delay=1|rate=0/1|delay=1
Err(RepeatedKey(2))|check|delay=1|delay=1|speed=1
Err(UnknownKey(2))|check|delay=1|speed=1|delay=1
Err(BadValue(1))|check|buffer=01
Err(UnknownCommand)|checks|speed=1
Err(RepeatedKey(4))|check|rate=1/1|delay=1|buffer=1|buffer=1
Err(MissingKey(Delay))|check|rate=1/1
Err(MissingKey(Delay))|check|rate=4294967295/4294967295
Err(MissingKey(Rate))|check|delay=0
Err(MissingKey(Rate))|check|delay=18446744073709551617
Err(MissingKey(Rate))|check|delay=4722366482869645213696
Err(MissingKey(Rate))|check|buffer=0
Err(MissingKey(Rate))|check|buffer=1099511627776
Err(BadValue(1))|check|rate=
Err(BadValue(1))|check|rate=/
Err(BadValue(1))|check|rate=1
Err(BadValue(1))|check|rate=1/
Err(BadValue(1))|check|rate=/1
Err(BadValue(1))|check|rate=01/1
Err(BadValue(1))|check|rate=1/01
Err(BadValue(1))|check|rate=+1/1
Err(BadValue(1))|check|rate=1/+1
Err(BadValue(1))|check|rate=-1/1
Err(BadValue(1))|check|rate=\u{20}
Err(BadValue(1))|check|rate= 1/1
Err(BadValue(1))|check|rate=1 /1
Err(BadValue(1))|check|rate=1/ 1
Err(BadValue(1))|check|rate=1/1\u{20}
Err(BadValue(1))|check|rate=1x1
Err(BadValue(1))|check|rate=1/1/1
Err(BadValue(1))|check|rate==1/1
Err(BadValue(1))|check|rate=0/1
Err(BadValue(1))|check|rate=1/0
Err(BadValue(1))|check|rate=4294967296/1
Err(BadValue(1))|check|rate=1/4294967296
Err(BadValue(1))|check|rate=18446744073709551617/1
Err(BadValue(1))|check|rate=1000000000000000000000/1
Err(BadValue(1))|check|rate=1/10000000000000000000000
Err(BadValue(1))|check|delay=
Err(BadValue(1))|check|delay=00
Err(BadValue(1))|check|delay=01
Err(BadValue(1))|check|delay=+1
Err(BadValue(1))|check|delay=-1
Err(BadValue(1))|check|delay=-0
Err(BadValue(1))|check|delay=\u{20}
Err(BadValue(1))|check|delay= 1
Err(BadValue(1))|check|delay=1\u{20}
Err(BadValue(1))|check|delay=1_0
Err(BadValue(1))|check|delay=0x1
Err(BadValue(1))|check|delay=\u{661}
Err(BadValue(1))|check|delay=1\u{0}
Err(BadValue(1))|check|delay=\u{FFFD}
Err(BadValue(1))|check|delay=1=1
Err(BadValue(1))|check|delay=4722366482869645213697
Err(BadValue(1))|check|delay=9999999999999999999999
Err(BadValue(1))|check|delay=0000000000000000000001
Err(BadValue(1))|check|delay=10000000000000000000000
Err(BadValue(1))|check|delay=340282366920938463463374607431768211457
Err(BadValue(1))|check|buffer=
Err(BadValue(1))|check|buffer=00
Err(BadValue(1))|check|buffer=01
Err(BadValue(1))|check|buffer=+1
Err(BadValue(1))|check|buffer=-1
Err(BadValue(1))|check|buffer=\u{20}
Err(BadValue(1))|check|buffer= 1
Err(BadValue(1))|check|buffer=1\u{20}
Err(BadValue(1))|check|buffer=1099511627777
Err(BadValue(1))|check|buffer=18446744073709551617
Err(BadValue(1))|check|buffer=1000000000000000000000
Err(BadValue(1))|check|buffer=9999999999999999999999
Err(BadValue(1))|check|buffer=10000000000000000000000
Err(BadValue(1))|check|buffer=340282366920938463463374607431768211457
";
