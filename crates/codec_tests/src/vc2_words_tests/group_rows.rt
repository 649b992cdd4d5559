//! Words of groups: a new sequence behind every so many pictures, of `encode` and of `trial`.

/// A key of no other command, and one that is not quite this one; two wrong words in both orders: the first of them is
/// told, and of a word the key before the value. Then values at their bounds, and those that are none.
pub(crate) const ROWS: &str = "\
Err(UnknownKey(1))|chain|group=1
Err(UnknownKey(1))|header|group=1
Err(UnknownKey(1))|decode|group=1
Err(UnknownKey(1))|check|group=1
Err(UnknownKey(4))|check|rate=1/1|delay=1|buffer=1|group=1
Err(UnknownKey(1))|encode|group
Err(UnknownKey(1))|encode|Group=1
Err(UnknownKey(1))|encode|groups=1
Err(UnknownKey(1))|encode| group=1
Err(RepeatedKey(2))|encode|group=1|group=1
Err(RepeatedKey(3))|trial|group=1|idle=1|group=0
Err(BadValue(1))|encode|group=0|group=1
Err(BadValue(1))|encode|group=0|first=01
Err(BadValue(1))|encode|first=01|group=0
Err(BadValue(1))|encode|group=0|delay=1
Err(UnknownKey(1))|encode|delay=1|group=0
Err(MissingKey(Size))|trial|group=3|fields=yes|pictures=1
Err(MissingKey(Size))|encode|group=1
Err(MissingKey(Size))|encode|group=2
Err(MissingKey(Size))|encode|group=1001
Err(MissingKey(Size))|encode|group=4294967295
Err(MissingKey(Size))|trial|group=1
Err(MissingKey(Size))|trial|group=2
Err(MissingKey(Size))|trial|group=1001
Err(MissingKey(Size))|trial|group=4294967295
Err(BadValue(1))|encode|group=
Err(BadValue(1))|encode|group=0
Err(BadValue(1))|encode|group=00
Err(BadValue(1))|encode|group=01
Err(BadValue(1))|encode|group=+1
Err(BadValue(1))|encode|group=-1
Err(BadValue(1))|encode|group=\u{20}
Err(BadValue(1))|encode|group= 1
Err(BadValue(1))|encode|group=1\u{20}
Err(BadValue(1))|encode|group=1_0
Err(BadValue(1))|encode|group=0x1
Err(BadValue(1))|encode|group=1/1
Err(BadValue(1))|encode|group=1=1
Err(BadValue(1))|encode|group=yes
Err(BadValue(1))|encode|group=\u{661}
Err(BadValue(1))|encode|group=1\u{0}
Err(BadValue(1))|encode|group=4294967296
Err(BadValue(1))|encode|group=18446744073709551617
Err(BadValue(1))|encode|group=1000000000000000000000
Err(BadValue(1))|encode|group=10000000000000000000000
Err(BadValue(1))|trial|group=
Err(BadValue(1))|trial|group=0
Err(BadValue(1))|trial|group=00
Err(BadValue(1))|trial|group=01
Err(BadValue(1))|trial|group=+1
Err(BadValue(1))|trial|group=-1
Err(BadValue(1))|trial|group=\u{20}
Err(BadValue(1))|trial|group= 1
Err(BadValue(1))|trial|group=1\u{20}
Err(BadValue(1))|trial|group=1_0
Err(BadValue(1))|trial|group=0x1
Err(BadValue(1))|trial|group=1/1
Err(BadValue(1))|trial|group=1=1
Err(BadValue(1))|trial|group=yes
Err(BadValue(1))|trial|group=\u{661}
Err(BadValue(1))|trial|group=1\u{0}
Err(BadValue(1))|trial|group=4294967296
Err(BadValue(1))|trial|group=18446744073709551617
Err(BadValue(1))|trial|group=1000000000000000000000
Err(BadValue(1))|trial|group=10000000000000000000000
";
