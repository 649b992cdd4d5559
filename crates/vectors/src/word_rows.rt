// Words that are refused: nothing is read, and nothing is written but the note.
use crate::row::check_rows;
use crate::runs::{Ends, WHOLE};
use std::test::Fail;

const ROWS: &str = "\
    no words |  | # | Usage(NoCommand) | # | usage: NoCommand;
    unknown command | play | # | Usage(UnknownCommand) | # | usage: UnknownCommand;
    unknown key | decode x=1 | # | Usage(UnknownKey(1)) | # | usage: UnknownKey word 1;
    repeated key | check delay=1 delay=2 | # | Usage(RepeatedKey(2)) | # | usage: RepeatedKey word 2;
    leading zero | check delay=02 | # | Usage(BadValue(1)) | # | usage: BadValue word 1;
    missing buffer | check rate=21/1 delay=2 | # | Usage(MissingKey(Buffer)) | # | usage: MissingKey buffer;
    missing delay | check rate=21/1 buffer=42 | # | Usage(MissingKey(Delay)) | # | usage: MissingKey delay;
    missing pictures | trial .. seed=0 | # | Usage(MissingKey(Pictures)) | # | usage: MissingKey pictures;
    trial of a stream that is too long | trial .. bytes=268435456/1 seed=0 pictures=1 | # | \
        Usage(SettingsRefused(TrialSize)) | # | usage: SettingsRefused TrialSize;
    matrix too steep | encode .. matrix=88 | #808080 | \
        Usage(SettingsRefused(MatrixTooSteep)) | # | usage: SettingsRefused MatrixTooSteep;
    chain with a second word | chain x=1 | # | Usage(UnknownKey(1)) | # | usage: UnknownKey word 1;
    trial of an odd number of fields | trial .. size=1x2 fields=yes seed=0 pictures=1 | # | \
        Usage(SettingsRefused(FieldCount)) | # | usage: SettingsRefused FieldCount;
    unknown key, check | check x=1 | #424243440000000011000000003f27424a42424344c80000001500000011000000000c92700142424344100000000000000015 | \
        Usage(UnknownKey(1)) | # | usage: UnknownKey word 1;
    a rate of nothing | check delay=2 rate=0/1 buffer=42 | #424243440000000011000000003f27424a42424344c80000001500000011000000000c92700142424344100000000000000015 | \
        Usage(BadValue(2)) | # | usage: BadValue word 2;
    another command's key | check rate=21/1 seed=1 | #424243440000000011000000003f27424a42424344c80000001500000011000000000c92700142424344100000000000000015 | \
        Usage(UnknownKey(2)) | # | usage: UnknownKey word 2;
    trial with too steep a matrix | trial .. matrix=88 seed=0 pictures=1 | # | \
        Usage(SettingsRefused(MatrixTooSteep)) | # | usage: SettingsRefused MatrixTooSteep;
    a key is missing | encode sampling=444 fps=25/1 signal=1 wavelet=haar-flat depth=0 slices=1x1 bytes=1/1 matrix=0 | #808080 | \
        Usage(MissingKey(Size)) | # | usage: MissingKey size;
    a key is missing | encode size=1x1 fps=25/1 signal=1 wavelet=haar-flat depth=0 slices=1x1 bytes=1/1 matrix=0 | #808080 | \
        Usage(MissingKey(Sampling)) | # | usage: MissingKey sampling;
    a key is missing | encode size=1x1 sampling=444 signal=1 wavelet=haar-flat depth=0 slices=1x1 bytes=1/1 matrix=0 | #808080 | \
        Usage(MissingKey(Fps)) | # | usage: MissingKey fps;
    a key is missing | encode size=1x1 sampling=444 fps=25/1 wavelet=haar-flat depth=0 slices=1x1 bytes=1/1 matrix=0 | #808080 | \
        Usage(MissingKey(Signal)) | # | usage: MissingKey signal;
    a key is missing | encode size=1x1 sampling=444 fps=25/1 signal=1 depth=0 slices=1x1 bytes=1/1 matrix=0 | #808080 | \
        Usage(MissingKey(Wavelet)) | # | usage: MissingKey wavelet;
    a key is missing | encode size=1x1 sampling=444 fps=25/1 signal=1 wavelet=haar-flat slices=1x1 bytes=1/1 matrix=0 | #808080 | \
        Usage(MissingKey(Depth)) | # | usage: MissingKey depth;
    a key is missing | encode size=1x1 sampling=444 fps=25/1 signal=1 wavelet=haar-flat depth=0 bytes=1/1 matrix=0 | #808080 | \
        Usage(MissingKey(Slices)) | # | usage: MissingKey slices;
    a key is missing | encode size=1x1 sampling=444 fps=25/1 signal=1 wavelet=haar-flat depth=0 slices=1x1 matrix=0 | #808080 | \
        Usage(MissingKey(Bytes)) | # | usage: MissingKey bytes;
    a key is missing | encode size=1x1 sampling=444 fps=25/1 signal=1 wavelet=haar-flat depth=0 slices=1x1 bytes=1/1 | #808080 | \
        Usage(MissingKey(Matrix)) | # | usage: MissingKey matrix;
    an empty value | encode .. size= | #808080 | Usage(BadValue(9)) | # | usage: BadValue word 9;
    an empty value | encode .. sampling= | #808080 | Usage(BadValue(9)) | # | usage: BadValue word 9;
    an empty value | encode .. fps= | #808080 | Usage(BadValue(9)) | # | usage: BadValue word 9;
    an empty value | encode .. signal= | #808080 | Usage(BadValue(9)) | # | usage: BadValue word 9;
    an empty value | encode .. wavelet= | #808080 | Usage(BadValue(9)) | # | usage: BadValue word 9;
    an empty value | encode .. depth= | #808080 | Usage(BadValue(9)) | # | usage: BadValue word 9;
    an empty value | encode .. slices= | #808080 | Usage(BadValue(9)) | # | usage: BadValue word 9;
    an empty value | encode .. bytes= | #808080 | Usage(BadValue(9)) | # | usage: BadValue word 9;
    an empty value | encode .. matrix= | #808080 | Usage(BadValue(9)) | # | usage: BadValue word 9;
    an empty value | encode .. scan= | #808080 | Usage(BadValue(10)) | # | usage: BadValue word 10;
    an empty value | encode .. fields= | #808080 | Usage(BadValue(10)) | # | usage: BadValue word 10;
    an empty value | encode .. first= | #808080 | Usage(BadValue(10)) | # | usage: BadValue word 10;
    an empty value | encode .. rate= | #808080 | Usage(BadValue(10)) | # | usage: BadValue word 10;
    an empty value | encode .. group= | #808080 | Usage(BadValue(10)) | # | usage: BadValue word 10;
    a zero in front | encode .. size=01x1 | #808080 | Usage(BadValue(9)) | # | usage: BadValue word 9;
    a sign in front | encode .. size=1x+1 | #808080 | Usage(BadValue(9)) | # | usage: BadValue word 9;
    a zero in front | encode .. sampling=0444 | #808080 | Usage(BadValue(9)) | # | usage: BadValue word 9;
    a sign in front | encode .. sampling=+444 | #808080 | Usage(BadValue(9)) | # | usage: BadValue word 9;
    a zero in front | encode .. fps=025/1 | #808080 | Usage(BadValue(9)) | # | usage: BadValue word 9;
    a sign in front | encode .. fps=25/+1 | #808080 | Usage(BadValue(9)) | # | usage: BadValue word 9;
    a zero in front | encode .. signal=01 | #808080 | Usage(BadValue(9)) | # | usage: BadValue word 9;
    a sign in front | encode .. signal=+1 | #808080 | Usage(BadValue(9)) | # | usage: BadValue word 9;
    a zero in front | encode .. wavelet=01 | #808080 | Usage(BadValue(9)) | # | usage: BadValue word 9;
    a sign in front | encode .. wavelet=+1 | #808080 | Usage(BadValue(9)) | # | usage: BadValue word 9;
    a zero in front | encode .. depth=00 | #808080 | Usage(BadValue(9)) | # | usage: BadValue word 9;
    a sign in front | encode .. depth=+0 | #808080 | Usage(BadValue(9)) | # | usage: BadValue word 9;
    a zero in front | encode .. slices=1x01 | #808080 | Usage(BadValue(9)) | # | usage: BadValue word 9;
    a sign in front | encode .. slices=+1x1 | #808080 | Usage(BadValue(9)) | # | usage: BadValue word 9;
    a zero in front | encode .. bytes=01/1 | #808080 | Usage(BadValue(9)) | # | usage: BadValue word 9;
    a sign in front | encode .. bytes=1/+1 | #808080 | Usage(BadValue(9)) | # | usage: BadValue word 9;
    a zero in front | encode .. matrix=00 | #808080 | Usage(BadValue(9)) | # | usage: BadValue word 9;
    a sign in front | encode .. matrix=+0 | #808080 | Usage(BadValue(9)) | # | usage: BadValue word 9;
    a zero in front | encode .. scan=01 | #808080 | Usage(BadValue(10)) | # | usage: BadValue word 10;
    a sign in front | encode .. scan=+1 | #808080 | Usage(BadValue(10)) | # | usage: BadValue word 10;
    a zero in front | encode .. fields=01 | #808080 | Usage(BadValue(10)) | # | usage: BadValue word 10;
    a sign in front | encode .. fields=+1 | #808080 | Usage(BadValue(10)) | # | usage: BadValue word 10;
    a zero in front | encode .. first=01 | #808080 | Usage(BadValue(10)) | # | usage: BadValue word 10;
    a sign in front | encode .. first=+1 | #808080 | Usage(BadValue(10)) | # | usage: BadValue word 10;
    a zero in front | encode .. rate=021/1 | #808080 | Usage(BadValue(10)) | # | usage: BadValue word 10;
    a sign in front | encode .. rate=21/+1 | #808080 | Usage(BadValue(10)) | # | usage: BadValue word 10;
    a zero in front | encode .. group=01 | #808080 | Usage(BadValue(10)) | # | usage: BadValue word 10;
    a sign in front | encode .. group=+1 | #808080 | Usage(BadValue(10)) | # | usage: BadValue word 10;
    another form or out of bounds | encode .. size=1 | #808080 | Usage(BadValue(9)) | # | usage: BadValue word 9;
    another form or out of bounds | encode .. size=1x1x1 | #808080 | Usage(BadValue(9)) | # | usage: BadValue word 9;
    another form or out of bounds | encode .. size=1X1 | #808080 | Usage(BadValue(9)) | # | usage: BadValue word 9;
    another form or out of bounds | encode .. size=4294967296x1 | #808080 | Usage(BadValue(9)) | # | usage: BadValue word 9;
    another form or out of bounds | encode .. sampling=411 | #808080 | Usage(BadValue(9)) | # | usage: BadValue word 9;
    another form or out of bounds | encode .. fps=0/1 | #808080 | Usage(BadValue(9)) | # | usage: BadValue word 9;
    another form or out of bounds | encode .. fps=25/0 | #808080 | Usage(BadValue(9)) | # | usage: BadValue word 9;
    another form or out of bounds | encode .. fps=25 | #808080 | Usage(BadValue(9)) | # | usage: BadValue word 9;
    another form or out of bounds | encode .. signal=0 | #808080 | Usage(BadValue(9)) | # | usage: BadValue word 9;
    another form or out of bounds | encode .. signal=5 | #808080 | Usage(BadValue(9)) | # | usage: BadValue word 9;
    another form or out of bounds | encode .. signal=0,255,128 | #808080 | Usage(BadValue(9)) | # | usage: BadValue word 9;
    another form or out of bounds | encode .. signal=0,255,128,255,0 | #808080 | \
        Usage(BadValue(9)) | # | usage: BadValue word 9;
    another form or out of bounds | encode .. wavelet=LeGall | #808080 | Usage(BadValue(9)) | # | usage: BadValue word 9;
    another form or out of bounds | encode .. depth=4294967296 | #808080 | Usage(BadValue(9)) | # | usage: BadValue word 9;
    another form or out of bounds | encode .. depth=-1 | #808080 | Usage(BadValue(9)) | # | usage: BadValue word 9;
    another form or out of bounds | encode .. slices=1 | #808080 | Usage(BadValue(9)) | # | usage: BadValue word 9;
    another form or out of bounds | encode .. bytes=1 | #808080 | Usage(BadValue(9)) | # | usage: BadValue word 9;
    another form or out of bounds | encode .. matrix= | #808080 | Usage(BadValue(9)) | # | usage: BadValue word 9;
    another form or out of bounds | encode .. matrix=0, | #808080 | Usage(BadValue(9)) | # | usage: BadValue word 9;
    another form or out of bounds | encode .. matrix=0,0,0,0,0,0,0,0,0,0,0,0,0,0 | #808080 | \
        Usage(BadValue(9)) | # | usage: BadValue word 9;
    another form or out of bounds | encode .. scan=2 | #808080 | Usage(BadValue(10)) | # | usage: BadValue word 10;
    another form or out of bounds | encode .. fields=1 | #808080 | Usage(BadValue(10)) | # | usage: BadValue word 10;
    another form or out of bounds | encode .. first=4294967296 | #808080 | Usage(BadValue(10)) | # | usage: BadValue word 10;
    another form or out of bounds | encode .. rate=0/1 | #808080 | Usage(BadValue(10)) | # | usage: BadValue word 10;
    another form or out of bounds | encode .. rate=21/0 | #808080 | Usage(BadValue(10)) | # | usage: BadValue word 10;
    another form or out of bounds | encode .. group=0 | #808080 | Usage(BadValue(10)) | # | usage: BadValue word 10;
    another form or out of bounds | encode .. group=4294967296 | #808080 | Usage(BadValue(10)) | # | usage: BadValue word 10;
    another form or out of bounds | encode .. group=1/1 | #808080 | Usage(BadValue(10)) | # | usage: BadValue word 10;
    another form or out of bounds | encode .. idle=1048577 | #808080 | Usage(BadValue(10)) | # | usage: BadValue word 10;
    another form or out of bounds | encode .. idle=-1 | #808080 | Usage(BadValue(10)) | # | usage: BadValue word 10;
    an unknown key | encode .. level=1 | #808080 | Usage(UnknownKey(10)) | # | usage: UnknownKey word 10;
    another command's key | encode .. delay=1 | #808080 | Usage(UnknownKey(10)) | # | usage: UnknownKey word 10;
    another command's key | encode .. buffer=1 | #808080 | Usage(UnknownKey(10)) | # | usage: UnknownKey word 10;
    another command's key | encode .. seed=1 | #808080 | Usage(UnknownKey(10)) | # | usage: UnknownKey word 10;
    another command's key | encode .. pictures=1 | #808080 | Usage(UnknownKey(10)) | # | usage: UnknownKey word 10;
    a repeated key | encode .. size=1x1 size=1 | #808080 | Usage(RepeatedKey(10)) | # | usage: RepeatedKey word 10;
    a broken rule | encode .. size=0x1 | #808080 | Usage(SettingsRefused(Size)) | # | usage: SettingsRefused Size;
    a broken rule | encode .. size=1x0 | #808080 | Usage(SettingsRefused(Size)) | # | usage: SettingsRefused Size;
    a broken rule | encode .. size=8193x1 | #808080 | Usage(SettingsRefused(Size)) | # | usage: SettingsRefused Size;
    a broken rule | encode .. size=1x8193 | #808080 | Usage(SettingsRefused(Size)) | # | usage: SettingsRefused Size;
    a broken rule | encode .. size=4097x4096 | #808080 | Usage(SettingsRefused(Size)) | # | usage: SettingsRefused Size;
    a broken rule | encode .. size=0x0 sampling=420 signal=0,0,0,0 depth=5 | #808080 | \
        Usage(SettingsRefused(Size)) | # | usage: SettingsRefused Size;
    a broken rule | encode .. sampling=422 | #808080 | Usage(SettingsRefused(Divide)) | # | usage: SettingsRefused Divide;
    a broken rule | encode .. sampling=420 size=1x2 | #808080 | \
        Usage(SettingsRefused(Divide)) | # | usage: SettingsRefused Divide;
    a broken rule | encode .. sampling=420 size=2x1 | #808080 | \
        Usage(SettingsRefused(Divide)) | # | usage: SettingsRefused Divide;
    a broken rule | encode .. fields=yes | #808080 | Usage(SettingsRefused(Divide)) | # | usage: SettingsRefused Divide;
    a broken rule | encode .. fields=yes sampling=420 size=2x2 | #808080 | \
        Usage(SettingsRefused(Divide)) | # | usage: SettingsRefused Divide;
    a broken rule | encode .. sampling=422 signal=0,0,0,0 | #808080 | \
        Usage(SettingsRefused(Divide)) | # | usage: SettingsRefused Divide;
    a broken rule | encode .. signal=0,0,128,255 | #808080 | \
        Usage(SettingsRefused(Signal)) | # | usage: SettingsRefused Signal;
    a broken rule | encode .. signal=0,65536,128,255 | #808080 | \
        Usage(SettingsRefused(Signal)) | # | usage: SettingsRefused Signal;
    a broken rule | encode .. signal=0,255,128,0 | #808080 | \
        Usage(SettingsRefused(Signal)) | # | usage: SettingsRefused Signal;
    a broken rule | encode .. signal=0,255,128,65536 | #808080 | \
        Usage(SettingsRefused(Signal)) | # | usage: SettingsRefused Signal;
    a broken rule | encode .. signal=0,255,128,0 depth=5 | #808080 | \
        Usage(SettingsRefused(Signal)) | # | usage: SettingsRefused Signal;
    a broken rule | encode .. depth=5 | #808080 | Usage(SettingsRefused(Depth)) | # | usage: SettingsRefused Depth;
    a broken rule | encode .. depth=5 slices=0x0 | #808080 | Usage(SettingsRefused(Depth)) | # | usage: SettingsRefused Depth;
    a broken rule | encode .. slices=0x1 | #808080 | Usage(SettingsRefused(Slices)) | # | usage: SettingsRefused Slices;
    a broken rule | encode .. slices=1x0 | #808080 | Usage(SettingsRefused(Slices)) | # | usage: SettingsRefused Slices;
    a broken rule | encode .. slices=8193x1 | #808080 | Usage(SettingsRefused(Slices)) | # | usage: SettingsRefused Slices;
    a broken rule | encode .. slices=1x8193 | #808080 | Usage(SettingsRefused(Slices)) | # | usage: SettingsRefused Slices;
    a broken rule | encode .. slices=1025x1024 | #808080 | Usage(SettingsRefused(Slices)) | # | usage: SettingsRefused Slices;
    a broken rule | encode .. bytes=1/0 | #808080 | Usage(SettingsRefused(Share)) | # | usage: SettingsRefused Share;
    a broken rule | encode .. bytes=0/1 | #808080 | Usage(SettingsRefused(Share)) | # | usage: SettingsRefused Share;
    a broken rule | encode .. bytes=1/2 | #808080 | Usage(SettingsRefused(Share)) | # | usage: SettingsRefused Share;
    a broken rule | encode .. bytes=268435457/1 | #808080 | Usage(SettingsRefused(Share)) | # | usage: SettingsRefused Share;
    a broken rule | encode .. bytes=1/2 matrix=0,0 | #808080 | \
        Usage(SettingsRefused(Share)) | # | usage: SettingsRefused Share;
    a broken rule | encode .. matrix=0,0 | #808080 | \
        Usage(SettingsRefused(MatrixCount)) | # | usage: SettingsRefused MatrixCount;
    a broken rule | encode .. depth=1 | #808080 | \
        Usage(SettingsRefused(MatrixCount)) | # | usage: SettingsRefused MatrixCount;
    a broken rule | encode .. matrix=88,88 first=1 | #808080 | \
        Usage(SettingsRefused(MatrixCount)) | # | usage: SettingsRefused MatrixCount;
    a broken rule | encode .. fields=yes size=1x2 first=1 | #808080 | \
        Usage(SettingsRefused(FirstOdd)) | # | usage: SettingsRefused FirstOdd;
    a broken rule | encode .. fields=yes size=1x2 first=1 matrix=88 | #808080 | \
        Usage(SettingsRefused(FirstOdd)) | # | usage: SettingsRefused FirstOdd;
    a broken rule | encode .. fields=yes size=1x2 first=1 group=1 | #808080 | \
        Usage(SettingsRefused(FirstOdd)) | # | usage: SettingsRefused FirstOdd;
    a broken rule | encode .. fields=yes size=1x2 group=3 | #808080 | \
        Usage(SettingsRefused(GroupOdd)) | # | usage: SettingsRefused GroupOdd;
    a broken rule | encode .. fields=yes size=1x2 group=1 matrix=88 | #808080 | \
        Usage(SettingsRefused(GroupOdd)) | # | usage: SettingsRefused GroupOdd;
    too steep a matrix | encode .. matrix=88 | #808080 | \
        Usage(SettingsRefused(MatrixTooSteep)) | # | usage: SettingsRefused MatrixTooSteep;
    too steep a matrix | encode .. signal=3 matrix=80 | #808080 | \
        Usage(SettingsRefused(MatrixTooSteep)) | # | usage: SettingsRefused MatrixTooSteep;
    too steep a matrix | encode .. signal=4 matrix=72 | #808080 | \
        Usage(SettingsRefused(MatrixTooSteep)) | # | usage: SettingsRefused MatrixTooSteep;
    too steep a matrix | encode .. signal=0,255,0,65535 matrix=56 | #808080 | \
        Usage(SettingsRefused(MatrixTooSteep)) | # | usage: SettingsRefused MatrixTooSteep;
    too steep a matrix | encode .. signal=0,65535,0,255 matrix=56 | #808080 | \
        Usage(SettingsRefused(MatrixTooSteep)) | # | usage: SettingsRefused MatrixTooSteep;
    too steep a matrix | encode .. signal=0,255,0,65535 depth=4 matrix=8,0,0,0,0,0,0,0,0,0,0,0,0 | #808080 | \
        Usage(SettingsRefused(MatrixTooSteep)) | # | usage: SettingsRefused MatrixTooSteep;
    too steep a matrix | encode .. signal=0,255,0,65535 depth=4 matrix=0,0,0,0,0,0,0,0,0,0,0,0,8 | #808080 | \
        Usage(SettingsRefused(MatrixTooSteep)) | # | usage: SettingsRefused MatrixTooSteep;";

#[test]
fn words_are_refused(rt: HostRuntime) -> Result<(), Fail> {
    let shut = Ends {
        read: 0,
        out: 0,
        ..WHOLE
    };
    check_rows(&rt, rt.alloc(), &shut, ROWS)
}
