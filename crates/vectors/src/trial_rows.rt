// What `trial` prints.
use crate::row::check_all;
use std::test::Fail;

const ROWS: &str = "\
    trial of one sample | trial .. seed=0 pictures=1 | # | \
        Done | trial seed 0 pictures 1;stream bytes 51 slices 1;rate=21/1 delay=2 buffer=42;worst 125; | #
    trial at another rate | trial .. seed=0 pictures=1 rate=1/7 | # | \
        Done | trial seed 0 pictures 1;stream bytes 51 slices 1;rate=1/7 delay=356 buffer=50;worst 125; | #";

#[test]
fn trials_are_printed(rt: HostRuntime) -> Result<(), Fail> {
    check_all(&rt, rt.alloc(), ROWS)
}
