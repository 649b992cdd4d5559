//! Words of `cut`.

/// Keys that are missing, in the table's order; keys that are none of its own or of other commands; values at their bounds and
/// those that are none; frames in order and not; and two faults of one word, of which the key's goes before the value's.
pub(crate) const ROWS: &str = "\
Err(MissingKey(Rate))|cut
Err(MissingKey(From))|cut|rate=21/1
Err(MissingKey(To))|cut|rate=21/1|from=0
Err(MissingKey(From))|cut|rate=21/1|to=1
Err(MissingKey(Rate))|cut|to=1|from=0
Err(MissingKey(Rate))|cut|idle=0
Err(MissingKey(To))|cut|idle=0|from=1|rate=1/1
Ok(Cut(CutSettings { from: 1, to: 2, rate: Rate { num: 21, den: 1 }, idle: 0 }))|cut|from=1|to=2|rate=21/1
Ok(Cut(CutSettings { from: 1, to: 2, rate: Rate { num: 21, den: 1 }, idle: 0 }))|cut|rate=21/1|to=2|from=1
Ok(Cut(CutSettings { from: 0, to: 4294967295, rate: Rate { num: 4294967295, den: 4294967295 }, idle: 1048576 }))\
    |cut|from=0|to=4294967295|rate=4294967295/4294967295|idle=1048576
Ok(Cut(CutSettings { from: 4294967294, to: 4294967295, rate: Rate { num: 2, den: 4 }, idle: 0 }))\
    |cut|idle=0|from=4294967294|to=4294967295|rate=2/4
Err(SettingsRefused(CutOrder))|cut|from=2|to=2|rate=21/1
Err(SettingsRefused(CutOrder))|cut|from=3|to=2|rate=21/1
Err(SettingsRefused(CutOrder))|cut|from=0|to=0|rate=21/1
Err(SettingsRefused(CutOrder))|cut|from=4294967295|to=4294967295|rate=1/1|idle=1
Err(SettingsRefused(CutOrder))|cut|from=4294967295|to=0|rate=1/1
Err(BadValue(1))|cut|from=4294967296
Err(BadValue(1))|cut|from=18446744073709551616
Err(BadValue(1))|cut|from=
Err(BadValue(1))|cut|from=-1
Err(BadValue(1))|cut|from=+1
Err(BadValue(1))|cut|from=01
Err(BadValue(1))|cut|from= 1
Err(BadValue(1))|cut|from=1\u{20}
Err(BadValue(1))|cut|from=1=1
Err(BadValue(1))|cut|from=1/1
Err(BadValue(1))|cut|from=first
Err(BadValue(2))|cut|from=0|to=4294967296
Err(BadValue(2))|cut|from=0|to=00
Err(BadValue(2))|cut|from=0|to=
Err(BadValue(2))|cut|from=0|to=end
Err(BadValue(1))|cut|rate=21
Err(BadValue(1))|cut|rate=0/1
Err(BadValue(1))|cut|rate=1/0
Err(BadValue(1))|cut|rate=4294967296/1
Err(BadValue(1))|cut|idle=1048577
Err(RepeatedKey(2))|cut|from=0|from=0
Err(RepeatedKey(2))|cut|to=1|to=none
Err(BadValue(1))|cut|to=none|to=1
Err(UnknownKey(1))|cut|from
Err(UnknownKey(1))|cut|From=0
Err(UnknownKey(1))|cut|till=1
Err(UnknownKey(1))|cut|delay=1
Err(UnknownKey(1))|cut|buffer=1
Err(UnknownKey(1))|cut|group=1
Err(UnknownKey(1))|cut|order=top
Err(UnknownKey(1))|cut|level=0
Err(UnknownKey(1))|cut|pictures=1
Err(UnknownKey(1))|cut|first=0
Err(UnknownCommand)|Cut|from=0
Err(UnknownCommand)|cuts|from=0
Err(UnknownKey(1))|chain|from=0
Err(UnknownKey(1))|header|to=1
Err(UnknownKey(1))|decode|from=0
Err(UnknownKey(1))|check|from=0
Err(UnknownKey(1))|check|to=1
Err(UnknownKey(1))|encode|from=0
Err(UnknownKey(1))|encode|to=1
Err(UnknownKey(1))|trial|from=0
Err(UnknownKey(1))|trial|to=1
Err(UnknownKey(1))|weave|from=0
Err(UnknownKey(1))|split|to=1
Err(UnknownKey(1))|frames|from=0
Err(UnknownKey(1))|proxy|to=1
";
