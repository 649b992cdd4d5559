//! The units that are written, but for the slices of a picture.

ghost use Rattle.parse_info.specs.declared.TheConstants.{HEAD_SIZE};
ghost use Rattle.std.specs.Prelude.{◌≡◌, ◌+◌, ◌<◌, ◌≤◌, ◌^◌, length};
ghost use Rattle.sequence_header.specs.Bytes.{header_len};
ghost use Rattle.slice_geometry.specs.Frames.{frame_of};
ghost use Rattle.slice_geometry.specs.UnitLengths.{IsUnitAllowed};
ghost use Rattle.transform_params.specs.ParameterFields.{unit_length};
ghost use Rattle.transform_params.specs.Views.{params_of};
ghost use Rattle.picture_codec.specs.Encoding.{slices_of};
ghost use Rattle.stream_writer.specs.EncodedStream.{header_unit, picture_unit, end_unit};
ghost use Rattle.stream_writer.specs.Writer.{picture_shape, plain_shape};

use parse_info::{Code, ParseInfo};
use picture_codec::{Picture, PictureEncoder};
use sequence_header::SequenceHeader;
use slice_geometry::UnitShape;
use transform_params::TransformParams;

/// Writes the first unit of a sequence.
pub(crate) fn write_header_unit(header: &SequenceHeader, unit: &mut [u8])
    requires { length unit.old ≡ HEAD_SIZE + header_len header.now }
    ensures { unit.new ≡ header_unit header.now }
{
    let mut head = [0; 13];
    let info = ParseInfo {
        code: Code::SequenceHeader,
        next: 13 + header.byte_len() as u32,
        previous: 0,
    };
    info.write(&mut head);
    unit[..13].copy_from_slice(&head);
    header.write(&mut unit[13..]);
}

/// Puts the unit of a picture into a buffer of its length.
pub(crate) fn write_picture_unit(
    encoder: &mut PictureEncoder,
    picture: &Picture,
    previous: u32,
    number: u32,
    unit: &mut [u8],
)
    requires shape { picture.now.shape ≡ encoder.old.shape }
    requires long { length unit.old ≡ unit_length encoder.old.params }
    requires small { length unit.old < 2 ^ 32 }
    ensures unit { unit.new ≡ picture_unit encoder.old.params previous number
        (slices_of (frame_of encoder.old.shape) encoder.old.params picture.now.samples) }
    ensures same_encoder { encoder.new ≡ encoder.old }
{
    let mut head = [0; 13];
    let info = ParseInfo {
        code: Code::LowDelayPicture,
        next: unit.len() as u32,
        previous,
    };
    info.write(&mut head);
    unit[..13].copy_from_slice(&head);
    encoder.encode(picture, number, &mut unit[13..]);
}

/// The end of a sequence, behind a unit of so many bytes.
pub(crate) fn end_unit(previous: u32) -> [u8; 13]
    ensures { result ≡ end_unit previous }
{
    let mut head = [0; 13];
    let info = ParseInfo {
        code: Code::EndOfSequence,
        next: 0,
        previous,
    };
    info.write(&mut head);
    head
}

/// The shape of a unit without slices.
pub(crate) fn plain_shape(start: u64, size: u64) -> UnitShape
    ensures { result ≡ plain_shape start size }
{
    UnitShape {
        start,
        head: size,
        slices: 0,
        a: 1,
        b: 1,
    }
}

/// The shape of a picture's unit.
pub(crate) fn picture_shape(params: &TransformParams, start: u64) -> UnitShape
    ensures shape { result ≡ picture_shape (params_of params.now) start }
    ensures allowed { IsUnitAllowed result }
    ensures some { 1 ≤ result.slices }
{
    let layout = params.layout;
    UnitShape {
        start,
        head: 17 + params.byte_len() as u64,
        slices: layout.count(),
        a: layout.a(),
        b: layout.b(),
    }
}
