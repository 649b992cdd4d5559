//! Heads of units.

use crate::told::{assert_same, assert_told, behind, bytes_of};
use parse_info::ParseInfo;
use std::process::Abort;

/// The three heads of the smallest stream, the first with a byte behind it, one of each other code, and each way to be refused.
const HEADS: &str = "\
Ok(ParseInfo { code: SequenceHeader, next: 17, previous: 0 })|424243440000000011000000003F
Ok(ParseInfo { code: LowDelayPicture, next: 21, previous: 17 })|42424344C80000001500000011
Ok(ParseInfo { code: EndOfSequence, next: 0, previous: 21 })|42424344100000000000000015
Ok(ParseInfo { code: Auxiliary, next: 16909060, previous: 4294967295 })|424243442001020304FFFFFFFF
Ok(ParseInfo { code: Padding, next: 13, previous: 271 })|42424344300000000D0000010F
Err(PrefixShort)|424243
Err(BadPrefix)|42424345E8
Err(CodeShort)|42424344
Err(UnsupportedCode(232))|42424344E8
Err(NextShort(Auxiliary))|4242434420000000
Err(PreviousShort(Padding, 271))|42424344300000010F00
";

/// Asserts that a head is written as it stood.
fn expect_written(rt: &impl Abort, info: ParseInfo, want: &[u8; 48]) {
    let mut head = [0; 13];
    info.write(&mut head);
    assert!(rt; head.as_slice() == &want[..13]);
}

#[test]
fn heads_are_read_and_written(rt: HostRuntime) {
    for row in HEADS.lines() {
        let (bytes, count) = bytes_of(&rt, behind(&rt, row));
        let found = ParseInfo::read(&bytes[..count]);
        assert_told(&rt, row, found);
        if let Ok(info) = found {
            expect_written(&rt, info, &bytes);
        }
    }
}
