// `check` with a schedule: with the one that `encode` prints of a stream, which is the least that runs, and with its neighbours.
use crate::row::check_all;
use std::test::Fail;

const ROWS: &str = "\
    schedule that runs | check rate=21/1 delay=2 buffer=42 | #424243440000000011000000003f27424a42424344c80000001500000011000000000c92700142424344100000000000000015 | \
        Done | accepted pictures 1 slices 1 bytes 51;runs; | #
    buffer one byte too small | check rate=21/1 delay=2 buffer=41 | #424243440000000011000000003f27424a42424344c80000001500000011000000000c92700142424344100000000000000015 | \
        Schedule(Overfull { slot: 2, fill: 42, size: 41 }) | accepted pictures 1 slices 1 bytes 51; | overfull at slot 2: fill 42 size 41;
    delay one slot too small | check rate=21/1 delay=1 buffer=42 | #424243440000000011000000003f27424a42424344c80000001500000011000000000c92700142424344100000000000000015 | \
        Schedule(Late { slot: 1, have: 21, need: 38 }) | accepted pictures 1 slices 1 bytes 51; | late at slot 1: have 21 need 38;
    the smallest stream | encode .. | #808080 | \
        Done | #424243440000000011000000003f27424a42424344c80000001500000011000000000c92700142424344100000000000000015 | rate=21/1 delay=2 buffer=42;
    its schedule | check rate=21/1 delay=2 buffer=42 | #424243440000000011000000003f27424a42424344c80000001500000011000000000c92700142424344100000000000000015 | \
        Done | accepted pictures 1 slices 1 bytes 51;runs; | #
    a neighbour of it | check rate=20/1 delay=2 buffer=42 | #424243440000000011000000003f27424a42424344c80000001500000011000000000c92700142424344100000000000000015 | \
        Done | accepted pictures 1 slices 1 bytes 51;runs; | #
    a neighbour of it | check rate=22/1 delay=2 buffer=42 | #424243440000000011000000003f27424a42424344c80000001500000011000000000c92700142424344100000000000000015 | \
        Schedule(Overfull { slot: 2, fill: 44, size: 42 }) | accepted pictures 1 slices 1 bytes 51; | overfull at slot 2: fill 44 size 42;
    a neighbour of it | check rate=21/2 delay=2 buffer=42 | #424243440000000011000000003f27424a42424344c80000001500000011000000000c92700142424344100000000000000015 | \
        Schedule(Late { slot: 2, have: 21, need: 38 }) | accepted pictures 1 slices 1 bytes 51; | late at slot 2: have 21 need 38;
    a neighbour of it | check rate=21/1 delay=1 buffer=42 | #424243440000000011000000003f27424a42424344c80000001500000011000000000c92700142424344100000000000000015 | \
        Schedule(Late { slot: 1, have: 21, need: 38 }) | accepted pictures 1 slices 1 bytes 51; | late at slot 1: have 21 need 38;
    a neighbour of it | check rate=21/1 delay=3 buffer=42 | #424243440000000011000000003f27424a42424344c80000001500000011000000000c92700142424344100000000000000015 | \
        Schedule(Overfull { slot: 3, fill: 51, size: 42 }) | accepted pictures 1 slices 1 bytes 51; | overfull at slot 3: fill 51 size 42;
    a neighbour of it | check rate=21/1 delay=2 buffer=41 | #424243440000000011000000003f27424a42424344c80000001500000011000000000c92700142424344100000000000000015 | \
        Schedule(Overfull { slot: 2, fill: 42, size: 41 }) | accepted pictures 1 slices 1 bytes 51; | overfull at slot 2: fill 42 size 41;
    a neighbour of it | check rate=21/1 delay=2 buffer=43 | #424243440000000011000000003f27424a42424344c80000001500000011000000000c92700142424344100000000000000015 | \
        Done | accepted pictures 1 slices 1 bytes 51;runs; | #
    no picture | encode .. | # | \
        Done | #424243440000000011000000003f27424a42424344100000000000000011 | rate=21/1 delay=2 buffer=30;
    its schedule | check rate=21/1 delay=2 buffer=30 | #424243440000000011000000003f27424a42424344100000000000000011 | \
        Done | accepted pictures 0 slices 0 bytes 30;runs; | #
    a neighbour of it | check rate=20/1 delay=2 buffer=30 | #424243440000000011000000003f27424a42424344100000000000000011 | \
        Done | accepted pictures 0 slices 0 bytes 30;runs; | #
    a neighbour of it | check rate=22/1 delay=2 buffer=30 | #424243440000000011000000003f27424a42424344100000000000000011 | \
        Done | accepted pictures 0 slices 0 bytes 30;runs; | #
    a neighbour of it | check rate=21/2 delay=2 buffer=30 | #424243440000000011000000003f27424a42424344100000000000000011 | \
        Schedule(Late { slot: 2, have: 21, need: 30 }) | accepted pictures 0 slices 0 bytes 30; | late at slot 2: have 21 need 30;
    a neighbour of it | check rate=21/1 delay=1 buffer=30 | #424243440000000011000000003f27424a42424344100000000000000011 | \
        Schedule(Late { slot: 1, have: 21, need: 30 }) | accepted pictures 0 slices 0 bytes 30; | late at slot 1: have 21 need 30;
    a neighbour of it | check rate=21/1 delay=3 buffer=30 | #424243440000000011000000003f27424a42424344100000000000000011 | \
        Done | accepted pictures 0 slices 0 bytes 30;runs; | #
    a neighbour of it | check rate=21/1 delay=2 buffer=29 | #424243440000000011000000003f27424a42424344100000000000000011 | \
        Schedule(Overfull { slot: 2, fill: 30, size: 29 }) | accepted pictures 0 slices 0 bytes 30; | overfull at slot 2: fill 30 size 29;
    a neighbour of it | check rate=21/1 delay=2 buffer=31 | #424243440000000011000000003f27424a42424344100000000000000011 | \
        Done | accepted pictures 0 slices 0 bytes 30;runs; | #
    two pictures at a quarter of the rate | encode .. rate=21/4 | #808080808080 | \
        Done | #424243440000000011000000003f27424a42424344c80000001500000011000000000c92700142424344c80000001500000015000000010c92700142424344100000000000000015 | rate=21/4 delay=12 buffer=63;
    its schedule | check rate=21/4 delay=12 buffer=63 | #424243440000000011000000003f27424a42424344c80000001500000011000000000c92700142424344c80000001500000015000000010c92700142424344100000000000000015 | \
        Done | accepted pictures 2 slices 2 bytes 72;runs; | #
    a neighbour of it | check rate=20/4 delay=12 buffer=63 | #424243440000000011000000003f27424a42424344c80000001500000011000000000c92700142424344c80000001500000015000000010c92700142424344100000000000000015 | \
        Schedule(Late { slot: 14, have: 70, need: 72 }) | accepted pictures 2 slices 2 bytes 72; | late at slot 14: have 70 need 72;
    a neighbour of it | check rate=22/4 delay=12 buffer=63 | #424243440000000011000000003f27424a42424344c80000001500000011000000000c92700142424344c80000001500000015000000010c92700142424344100000000000000015 | \
        Schedule(Overfull { slot: 12, fill: 66, size: 63 }) | accepted pictures 2 slices 2 bytes 72; | overfull at slot 12: fill 66 size 63;
    a neighbour of it | check rate=21/3 delay=12 buffer=63 | #424243440000000011000000003f27424a42424344c80000001500000011000000000c92700142424344c80000001500000015000000010c92700142424344100000000000000015 | \
        Schedule(Overfull { slot: 12, fill: 72, size: 63 }) | accepted pictures 2 slices 2 bytes 72; | overfull at slot 12: fill 72 size 63;
    a neighbour of it | check rate=21/5 delay=12 buffer=63 | #424243440000000011000000003f27424a42424344c80000001500000011000000000c92700142424344c80000001500000015000000010c92700142424344100000000000000015 | \
        Schedule(Late { slot: 13, have: 54, need: 59 }) | accepted pictures 2 slices 2 bytes 72; | late at slot 13: have 54 need 59;
    a neighbour of it | check rate=21/4 delay=11 buffer=63 | #424243440000000011000000003f27424a42424344c80000001500000011000000000c92700142424344c80000001500000015000000010c92700142424344100000000000000015 | \
        Schedule(Late { slot: 13, have: 68, need: 72 }) | accepted pictures 2 slices 2 bytes 72; | late at slot 13: have 68 need 72;
    a neighbour of it | check rate=21/4 delay=13 buffer=63 | #424243440000000011000000003f27424a42424344c80000001500000011000000000c92700142424344c80000001500000015000000010c92700142424344100000000000000015 | \
        Schedule(Overfull { slot: 13, fill: 68, size: 63 }) | accepted pictures 2 slices 2 bytes 72; | overfull at slot 13: fill 68 size 63;
    a neighbour of it | check rate=21/4 delay=12 buffer=62 | #424243440000000011000000003f27424a42424344c80000001500000011000000000c92700142424344c80000001500000015000000010c92700142424344100000000000000015 | \
        Schedule(Overfull { slot: 12, fill: 63, size: 62 }) | accepted pictures 2 slices 2 bytes 72; | overfull at slot 12: fill 63 size 62;
    a neighbour of it | check rate=21/4 delay=12 buffer=64 | #424243440000000011000000003f27424a42424344c80000001500000011000000000c92700142424344c80000001500000015000000010c92700142424344100000000000000015 | \
        Done | accepted pictures 2 slices 2 bytes 72;runs; | #
    two slices | encode .. size=2x1 slices=2x1 | #808079798080 | \
        Done | #424243440000000011000000003f67424a42424344c80000001600000011000000000d92700a0342424344100000000000000016 | rate=22/2 delay=4 buffer=44;
    its schedule | check rate=22/2 delay=4 buffer=44 | #424243440000000011000000003f67424a42424344c80000001600000011000000000d92700a0342424344100000000000000016 | \
        Done | accepted pictures 1 slices 2 bytes 52;runs; | #
    a neighbour of it | check rate=21/2 delay=4 buffer=44 | #424243440000000011000000003f67424a42424344c80000001600000011000000000d92700a0342424344100000000000000016 | \
        Done | accepted pictures 1 slices 2 bytes 52;runs; | #
    a neighbour of it | check rate=23/2 delay=4 buffer=44 | #424243440000000011000000003f67424a42424344c80000001600000011000000000d92700a0342424344100000000000000016 | \
        Schedule(Overfull { slot: 4, fill: 46, size: 44 }) | accepted pictures 1 slices 2 bytes 52; | overfull at slot 4: fill 46 size 44;
    a neighbour of it | check rate=22/1 delay=4 buffer=44 | #424243440000000011000000003f67424a42424344c80000001600000011000000000d92700a0342424344100000000000000016 | \
        Schedule(Overfull { slot: 4, fill: 52, size: 44 }) | accepted pictures 1 slices 2 bytes 52; | overfull at slot 4: fill 52 size 44;
    a neighbour of it | check rate=22/3 delay=4 buffer=44 | #424243440000000011000000003f67424a42424344c80000001600000011000000000d92700a0342424344100000000000000016 | \
        Schedule(Late { slot: 4, have: 29, need: 38 }) | accepted pictures 1 slices 2 bytes 52; | late at slot 4: have 29 need 38;
    a neighbour of it | check rate=22/2 delay=3 buffer=44 | #424243440000000011000000003f67424a42424344c80000001600000011000000000d92700a0342424344100000000000000016 | \
        Schedule(Late { slot: 3, have: 33, need: 38 }) | accepted pictures 1 slices 2 bytes 52; | late at slot 3: have 33 need 38;
    a neighbour of it | check rate=22/2 delay=5 buffer=44 | #424243440000000011000000003f67424a42424344c80000001600000011000000000d92700a0342424344100000000000000016 | \
        Schedule(Overfull { slot: 5, fill: 52, size: 44 }) | accepted pictures 1 slices 2 bytes 52; | overfull at slot 5: fill 52 size 44;
    a neighbour of it | check rate=22/2 delay=4 buffer=43 | #424243440000000011000000003f67424a42424344c80000001600000011000000000d92700a0342424344100000000000000016 | \
        Schedule(Overfull { slot: 4, fill: 44, size: 43 }) | accepted pictures 1 slices 2 bytes 52; | overfull at slot 4: fill 44 size 43;
    a neighbour of it | check rate=22/2 delay=4 buffer=45 | #424243440000000011000000003f67424a42424344c80000001600000011000000000d92700a0342424344100000000000000016 | \
        Done | accepted pictures 1 slices 2 bytes 52;runs; | #";

#[test]
fn schedules_are_replayed(rt: HostRuntime) -> Result<(), Fail> {
    check_all(&rt, rt.alloc(), ROWS)
}
