//! Words of `encode`.

/// The settings of operands that have to be there; and of optional ones, a size of two numbers and a signal range of four. The
/// bound of a size, keys that `encode` has not, and two wrong words in both orders: the first of them is told, and a wrong
/// word before a key that is missing or a rule that is broken. One operand is left out, with those behind it and without
/// them. Then values at their bounds; and below and above them, and in each form that is not quite a value.
pub(crate) const ROWS: &str = "\
Ok(Encode(Settings { header: SequenceHeader { parts: HeaderParts { major: 1, minor: 0, level: 0, width: 2, height: 2, \
    sampling: 0, scan: None, rate: Index(3), aspect: Default, clean: None, signal: Index(1), colour: Default, coding: 0 } }, \
    params: TransformParams { wavelet: LeGall, layout: Layout { depth: 1, slices_x: 1, slices_y: 1, a: 5, b: 1 }, \
    matrix: Matrix { depth: 1, entries: [0, 0, 0, 0, 0, 0, 0, 0, 0, 0, 0, 0, 0] } }, first: 0, rate: Rate { num: 26, den: 1 }, group: None, idle: 0 }))\
    |encode|size=2x2|sampling=444|fps=25/1|signal=1|wavelet=legall|depth=1|slices=1x1|bytes=5/1|matrix=0,0,0,0
Ok(Encode(Settings { header: SequenceHeader { parts: HeaderParts { major: 1, minor: 0, level: 0, width: 6, height: 4, \
    sampling: 0, scan: Some(1), rate: Index(3), aspect: Default, clean: None, signal: Custom(SignalRange { luma_offset: 1, \
    luma_excursion: 2, colour_offset: 3, colour_excursion: 4 }), colour: Default, coding: 1 } }, \
    params: TransformParams { wavelet: LeGall, layout: Layout { depth: 1, slices_x: 1, slices_y: 1, a: 5, b: 1 }, \
    matrix: Matrix { depth: 1, entries: [0, 0, 0, 0, 0, 0, 0, 0, 0, 0, 0, 0, 0] } }, first: 6, rate: Rate { num: 3, den: 4 }, group: None, idle: 0 }))\
    |encode|size=6x4|signal=1,2,3,4|rate=3/4|first=6|fields=yes|scan=1|sampling=444|fps=25/1|wavelet=legall|depth=1|slices=1x1|bytes=5/1|matrix=0,0,0,0
Err(MissingKey(Sampling))|encode|size=4294967295x0
Err(UnknownKey(1))|encode|delay=1
Err(UnknownKey(1))|encode|buffer=1
Err(UnknownKey(1))|encode|seed=1
Err(UnknownKey(1))|encode|pictures=1
Err(UnknownKey(1))|encode|frames=1
Err(BadValue(1))|encode|size=1|depth=01
Err(BadValue(1))|encode|depth=01|size=1
Err(UnknownKey(1))|encode|delay=1|depth=01
Err(BadValue(1))|encode|depth=01|delay=1
Err(RepeatedKey(2))|encode|size=0x1|size=1|depth=01
Err(BadValue(2))|encode|size=0x1|depth=01|size=1
Err(MissingKey(Size))|encode|first=1|fields=yes|depth=5
Err(MissingKey(Fps))|encode|size=0x0|sampling=420|depth=5
Err(MissingKey(Size))|encode
Err(MissingKey(Size))|encode|sampling=444|fps=25/1|signal=1|wavelet=legall|depth=1|slices=1x1|bytes=5/1|matrix=0,0,0,0
Err(MissingKey(Sampling))|encode|size=2x2
Err(MissingKey(Sampling))|encode|size=2x2|fps=25/1|signal=1|wavelet=legall|depth=1|slices=1x1|bytes=5/1|matrix=0,0,0,0
Err(MissingKey(Fps))|encode|size=2x2|sampling=444
Err(MissingKey(Fps))|encode|size=2x2|sampling=444|signal=1|wavelet=legall|depth=1|slices=1x1|bytes=5/1|matrix=0,0,0,0
Err(MissingKey(Signal))|encode|size=2x2|sampling=444|fps=25/1
Err(MissingKey(Signal))|encode|size=2x2|sampling=444|fps=25/1|wavelet=legall|depth=1|slices=1x1|bytes=5/1|matrix=0,0,0,0
Err(MissingKey(Wavelet))|encode|size=2x2|sampling=444|fps=25/1|signal=1
Err(MissingKey(Wavelet))|encode|size=2x2|sampling=444|fps=25/1|signal=1|depth=1|slices=1x1|bytes=5/1|matrix=0,0,0,0
Err(MissingKey(Depth))|encode|size=2x2|sampling=444|fps=25/1|signal=1|wavelet=legall
Err(MissingKey(Depth))|encode|size=2x2|sampling=444|fps=25/1|signal=1|wavelet=legall|slices=1x1|bytes=5/1|matrix=0,0,0,0
Err(MissingKey(Slices))|encode|size=2x2|sampling=444|fps=25/1|signal=1|wavelet=legall|depth=1
Err(MissingKey(Slices))|encode|size=2x2|sampling=444|fps=25/1|signal=1|wavelet=legall|depth=1|bytes=5/1|matrix=0,0,0,0
Err(MissingKey(Bytes))|encode|size=2x2|sampling=444|fps=25/1|signal=1|wavelet=legall|depth=1|slices=1x1
Err(MissingKey(Bytes))|encode|size=2x2|sampling=444|fps=25/1|signal=1|wavelet=legall|depth=1|slices=1x1|matrix=0,0,0,0
Err(MissingKey(Matrix))|encode|size=2x2|sampling=444|fps=25/1|signal=1|wavelet=legall|depth=1|slices=1x1|bytes=5/1
Err(MissingKey(Size))|encode|sampling=444
Err(MissingKey(Size))|encode|sampling=422
Err(MissingKey(Size))|encode|sampling=420
Err(MissingKey(Size))|encode|wavelet=legall
Err(MissingKey(Size))|encode|wavelet=haar-flat
Err(MissingKey(Size))|encode|wavelet=haar-shift
Err(MissingKey(Size))|encode|fields=yes
Err(MissingKey(Size))|encode|fields=no
Err(MissingKey(Size))|encode|depth=0
Err(MissingKey(Size))|encode|depth=4294967295
Err(MissingKey(Size))|encode|first=0
Err(MissingKey(Size))|encode|first=4294967295
Err(MissingKey(Size))|encode|scan=0
Err(MissingKey(Size))|encode|scan=1
Err(MissingKey(Size))|encode|fps=1/1
Err(MissingKey(Size))|encode|fps=4294967295/4294967295
Err(MissingKey(Size))|encode|slices=0x0
Err(MissingKey(Size))|encode|slices=4294967295x4294967295
Err(MissingKey(Size))|encode|bytes=0/0
Err(MissingKey(Size))|encode|bytes=4294967295/4294967295
Err(MissingKey(Size))|encode|signal=1
Err(MissingKey(Size))|encode|signal=4
Err(MissingKey(Size))|encode|signal=0,0,0,0
Err(MissingKey(Size))|encode|signal=4294967295,4294967295,4294967295,4294967295
Err(MissingKey(Size))|encode|matrix=0
Err(MissingKey(Size))|encode|matrix=4294967295,4294967295
Err(MissingKey(Size))|encode|matrix=0,1,2,3,4,5,6,7,8,9,10,11,12
Err(BadValue(1))|encode|size=
Err(BadValue(1))|encode|size=x
Err(BadValue(1))|encode|size=1
Err(BadValue(1))|encode|size=1x
Err(BadValue(1))|encode|size=x1
Err(BadValue(1))|encode|size=01x1
Err(BadValue(1))|encode|size=1x01
Err(BadValue(1))|encode|size=+1x1
Err(BadValue(1))|encode|size=1x+1
Err(BadValue(1))|encode|size= 1x1
Err(BadValue(1))|encode|size=1x1\u{20}
Err(BadValue(1))|encode|size=1X1
Err(BadValue(1))|encode|size=1x1x1
Err(BadValue(1))|encode|size=4294967296x1
Err(BadValue(1))|encode|size=1x4294967296
Err(BadValue(1))|encode|size=1000000000000000000000x1
Err(BadValue(1))|encode|size=1x10000000000000000000000
Err(BadValue(1))|encode|sampling=
Err(BadValue(1))|encode|sampling=0422
Err(BadValue(1))|encode|sampling=+422
Err(BadValue(1))|encode|sampling= 422
Err(BadValue(1))|encode|sampling=01
Err(BadValue(1))|encode|sampling=443
Err(BadValue(1))|encode|sampling=1000000000000000000000
Err(BadValue(1))|encode|sampling=10000000000000000000000
Err(BadValue(1))|encode|sampling=411
Err(BadValue(1))|encode|sampling=421
Err(BadValue(1))|encode|sampling=4:2:2
Err(BadValue(1))|encode|wavelet=
Err(BadValue(1))|encode|wavelet=01
Err(BadValue(1))|encode|wavelet=+1
Err(BadValue(1))|encode|wavelet= legall
Err(BadValue(1))|encode|wavelet=1000000000000000000000
Err(BadValue(1))|encode|wavelet=LeGall
Err(BadValue(1))|encode|wavelet=haar
Err(BadValue(1))|encode|wavelet=legall\u{20}
Err(BadValue(1))|encode|fields=
Err(BadValue(1))|encode|fields=01
Err(BadValue(1))|encode|fields=+1
Err(BadValue(1))|encode|fields=10000000000000000000000
Err(BadValue(1))|encode|fields=Yes
Err(BadValue(1))|encode|fields= yes
Err(BadValue(1))|encode|fields=yes no
Err(BadValue(1))|encode|depth=
Err(BadValue(1))|encode|depth=01
Err(BadValue(1))|encode|depth=+1
Err(BadValue(1))|encode|depth= 1
Err(BadValue(1))|encode|depth=-1
Err(BadValue(1))|encode|depth=4294967296
Err(BadValue(1))|encode|depth=18446744073709551617
Err(BadValue(1))|encode|depth=1000000000000000000000
Err(BadValue(1))|encode|depth=10000000000000000000000
Err(BadValue(1))|encode|first=
Err(BadValue(1))|encode|first=01
Err(BadValue(1))|encode|first=+1
Err(BadValue(1))|encode|first=\u{20}
Err(BadValue(1))|encode|first=4294967296
Err(BadValue(1))|encode|first=1000000000000000000000
Err(BadValue(1))|encode|first=10000000000000000000000
Err(BadValue(1))|encode|scan=
Err(BadValue(1))|encode|scan=01
Err(BadValue(1))|encode|scan=+1
Err(BadValue(1))|encode|scan= 1
Err(BadValue(1))|encode|scan=-1
Err(BadValue(1))|encode|scan=2
Err(BadValue(1))|encode|scan=18446744073709551616
Err(BadValue(1))|encode|scan=1000000000000000000000
Err(BadValue(1))|encode|scan=10000000000000000000000
Err(BadValue(1))|encode|fps=
Err(BadValue(1))|encode|fps=25
Err(BadValue(1))|encode|fps=25/01
Err(BadValue(1))|encode|fps=+25/1
Err(BadValue(1))|encode|fps=25 /1
Err(BadValue(1))|encode|fps=0/1
Err(BadValue(1))|encode|fps=25/0
Err(BadValue(1))|encode|fps=4294967296/1
Err(BadValue(1))|encode|fps=1/4294967296
Err(BadValue(1))|encode|fps=1000000000000000000000/1
Err(BadValue(1))|encode|fps=1/10000000000000000000000
Err(BadValue(1))|encode|slices=
Err(BadValue(1))|encode|slices=1
Err(BadValue(1))|encode|slices=01x1
Err(BadValue(1))|encode|slices=1x+1
Err(BadValue(1))|encode|slices=1x 1
Err(BadValue(1))|encode|slices=4294967296x1
Err(BadValue(1))|encode|slices=1x4294967296
Err(BadValue(1))|encode|slices=1000000000000000000000x1
Err(BadValue(1))|encode|slices=1x10000000000000000000000
Err(BadValue(1))|encode|bytes=
Err(BadValue(1))|encode|bytes=1
Err(BadValue(1))|encode|bytes=01/1
Err(BadValue(1))|encode|bytes=1/+1
Err(BadValue(1))|encode|bytes= 1/1
Err(BadValue(1))|encode|bytes=4294967296/1
Err(BadValue(1))|encode|bytes=1/4294967296
Err(BadValue(1))|encode|bytes=1000000000000000000000/1
Err(BadValue(1))|encode|bytes=1/10000000000000000000000
Err(BadValue(1))|encode|rate=0/1
Err(BadValue(1))|encode|signal=
Err(BadValue(1))|encode|signal=01
Err(BadValue(1))|encode|signal=+1
Err(BadValue(1))|encode|signal= 1
Err(BadValue(1))|encode|signal=0
Err(BadValue(1))|encode|signal=5
Err(BadValue(1))|encode|signal=1,1
Err(BadValue(1))|encode|signal=1,1,1
Err(BadValue(1))|encode|signal=0,0,0,
Err(BadValue(1))|encode|signal=0,0,0,00
Err(BadValue(1))|encode|signal=0, 0,0,0
Err(BadValue(1))|encode|signal=0,0,0,0,0
Err(BadValue(1))|encode|signal=4294967296,0,0,0
Err(BadValue(1))|encode|signal=0,0,0,4294967296
Err(BadValue(1))|encode|signal=1000000000000000000000
Err(BadValue(1))|encode|signal=0,0,0,10000000000000000000000
Err(BadValue(1))|encode|matrix=
Err(BadValue(1))|encode|matrix=01
Err(BadValue(1))|encode|matrix=+1
Err(BadValue(1))|encode|matrix= 1
Err(BadValue(1))|encode|matrix=0,
Err(BadValue(1))|encode|matrix=,0
Err(BadValue(1))|encode|matrix=4294967296
Err(BadValue(1))|encode|matrix=0,4294967296
Err(BadValue(1))|encode|matrix=0, 1
Err(BadValue(1))|encode|matrix=0,1000000000000000000000
Err(BadValue(1))|encode|matrix=10000000000000000000000
Err(BadValue(1))|encode|matrix=0,1,2,3,4,5,6,7,8,9,10,11,12,13
";
