//! The bands and the parameters of pictures that were read.

use crate::stream_units_tests::reading::assert_same;
use crate::told::bytes_of;
use picture_codec::ShownBands;
use slice_geometry::Component;
use std::alloc::{AllocError, Global};
use std::fmt::Display;
use std::process::Abort;
use std::test::Fail;
use stream_units::{Item, StreamReader};
use vc2_io::MemSource;

/// Pictures behind their headers, and what they tell: the wavelet, the depth, and of each component the lowest band and the numbers
/// of the slice. One of one level, and one of none.
const BANDS: &str = "\
square unit C8 0000001A 00000011 00000000 24949F8000D0A4126D = LeGall 1 : 21 : 21 3 -5 2 : 0 : 0 0 0 0 : 0 : 0 0 0 0
header unit C8 00000015 00000011 00000000 0C927000 = HaarFlat 0 : 0 : 0 : -2 : -2 : 0 : 0";

fn tell_numbers<T: Display>(text: &mut String, numbers: &[T]) -> Result<(), AllocError> {
    write!(text, " :")?;
    for number in numbers {
        write!(text, " {number}")?;
    }
    Ok(())
}

/// Tells the bands of a component, where these are in 16 bits.
fn tell_component(text: &mut String, bands: ShownBands) -> Result<(), AllocError> {
    match bands {
        ShownBands::Short(bands) if bands.lowest.h() == 1 => {
            tell_numbers(text, bands.lowest.row(0))?;
            tell_numbers(text, bands.slices.numbers())
        }
        _ => write!(text, " wide"),
    }
}

/// Tells the parameters of the picture that was read last, and its bands.
fn tell_picture(text: &mut String, reader: &StreamReader) -> Result<(), AllocError> {
    match (reader.params(), reader.bands()) {
        (Some(params), Some(bands)) => {
            write!(text, " {:?} {}", params.wavelet, params.layout.depth())?;
            tell_component(text, bands.component(Component::Luma))?;
            tell_component(text, bands.component(Component::C1))?;
            tell_component(text, bands.component(Component::C2))
        }
        _ => write!(text, " none"),
    }
}

/// Tells them of the first picture; before it there are none.
fn told(rt: &impl Abort, alloc: Global, bytes: &[u8], text: &mut String) -> Result<(), Fail> {
    let mut src = MemSource::new(bytes, &[], &[]);
    let mut reader = StreamReader::new(alloc)?;
    assert_eq!(rt; reader.next(&mut src), Ok(Item::Sequence));
    assert!(rt; reader.params().is_none() && reader.bands().is_none());
    assert_eq!(rt; reader.next(&mut src), Ok(Item::Picture(0)));
    let done = tell_picture(text, &reader);
    drop(reader);
    Ok(done?)
}

#[test]
fn bands_of_pictures(rt: HostRuntime) -> Result<(), Fail> {
    for row in BANDS.lines() {
        let (words, wanted) = row.split_once(" =").expect(&rt, "a row");
        let bytes = bytes_of(rt.alloc(), words)?;
        let mut text = String::new(rt.alloc());
        told(&rt, rt.alloc(), bytes.as_slice(), &mut text)?;
        assert_same(&rt, text.as_str(), wanted);
    }
    Ok(())
}
