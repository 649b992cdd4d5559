// Frames and fields as raw text, row by row, with no picture made of them.
ghost use Rattle.std.specs.Prelude.{◌≡◌, ◌≤◌, ◌++◌, OnOk, OnErr, false, true};
ghost use Rattle.std.specs.Io.KnownBytes.{Appends};
ghost use Rattle.vc2_io.specs.Outside.{HasCause, GrewShort};
ghost use Rattle.slice_geometry.specs.Frames.{frame_of};
ghost use Rattle.picture_codec.specs.Pictures as pictures;
ghost use Rattle.picture_codec.specs.Samples.{component_shown};
ghost use Rattle.raw_video.specs.RawText.{is_wide, raw_text, text_of};
ghost use Rattle.raw_video.specs.Waiting.{PassesOn};
ghost use Rattle.field_weave.specs.declared.Order.TheVariants.{Bottom};
ghost use Rattle.field_weave.specs.Weaving.{frame_of_two, woven_frame, split, split_lines, woven_lines};

use crate::Order;
use crate::lines::{line_of, size_of};
use picture_codec::Picture;
use raw_video::RawWriter;
use slice_geometry::{Component, PictureShape};
use vc2_io::{Failed, Sink};

// Writes a component of a frame: the rows of two fields in turn. The upper one is the second in the order Bottom.
fn write_alternating<K: Sink>(
    upper: &Picture,
    lower: &Picture,
    c: Component,
    writer: &mut RawWriter,
    out: &mut K,
) -> Result<(), Failed>
    requires { lower.now.shape ≡ upper.now.shape }
    ensures wide { OnOk result (writer.new.wide ≡ writer.old.wide) }
    ensures ok { OnOk result (PassesOn (K.written out.old)
        (K.written out.new) writer.old.waiting writer.new.waiting
        (text_of writer.old.wide (woven_lines Bottom (pictures.size_of (frame_of upper.now.shape) c)
        (component_shown lower.now c) (component_shown upper.now c)).cells)) }
    ensures err { OnErr result (GrewShort (K.written out.old) (K.written out.new)
        (writer.old.waiting
        ++ text_of writer.old.wide (woven_lines Bottom
        (pictures.size_of (frame_of upper.now.shape) c) (component_shown lower.now c)
        (component_shown upper.now c)).cells)) }
    ensures cause { HasCause (K.faults out.old) (K.faults out.new) result }
{
    let size = size_of(upper.shape(), c);
    let w = size.w as usize;
    let first = upper.samples(c);
    let second = lower.samples(c);
    for y in 0..size.h as usize {
        writer.put(out, &first[y * w..y * w + w])?;
        writer.put(out, &second[y * w..y * w + w])?;
    }
    Ok(())
}

// Writes a component of a field: every second row of the frame, from this one on.
fn write_split<K: Sink>(
    frame: &Picture,
    field: &PictureShape,
    c: Component,
    line: u32,
    writer: &mut RawWriter,
    out: &mut K,
) -> Result<(), Failed>
    requires line { line ≤ 1 }
    requires doubled { frame_of frame.now.shape ≡ frame_of_two (frame_of field.now) }
    ensures wide { OnOk result (writer.new.wide ≡ writer.old.wide) }
    ensures ok { OnOk result (PassesOn (K.written out.old)
        (K.written out.new) writer.old.waiting writer.new.waiting
        (text_of writer.old.wide (split_lines (pictures.size_of (frame_of field.now) c) line
        (component_shown frame.now c)).cells)) }
    ensures err { OnErr result (GrewShort (K.written out.old) (K.written out.new)
        (writer.old.waiting
        ++ text_of writer.old.wide (split_lines (pictures.size_of (frame_of field.now) c) line
        (component_shown frame.now c)).cells)) }
    ensures cause { HasCause (K.faults out.old) (K.faults out.new) result }
{
    let size = size_of(field, c);
    let w = size.w as usize;
    let samples = frame.samples(c);
    for y in 0..size.h as usize {
        let from = (2 * y + line as usize) * w;
        writer.put(out, &samples[from..from + w])?;
    }
    Ok(())
}

/// Writes the frame of two fields of one shape.
pub(crate) fn write_frame<K: Sink>(
    first: &Picture,
    second: &Picture,
    order: Order,
    out: &mut K,
) -> Result<(), Failed>
    requires { second.now.shape ≡ first.now.shape }
    ensures ok { OnOk result (Appends (K.written out.old) (K.written out.new)
        (raw_text (frame_of_two (frame_of first.now.shape))
        (woven_frame order (frame_of first.now.shape) first.now.samples second.now.samples))) }
    ensures err { OnErr result (GrewShort (K.written out.old) (K.written out.new)
        (raw_text (frame_of_two (frame_of first.now.shape))
        (woven_frame order (frame_of first.now.shape) first.now.samples second.now.samples))) }
    ensures cause { HasCause (K.faults out.old) (K.faults out.new) result }
{
    match order {
        Order::Top => write_rows_of(first, second, out),
        Order::Bottom => write_rows_of(second, first, out),
    }
}

// Writes the frame whose rows are those of two fields in turn. The upper one is the second in the order Bottom.
fn write_rows_of<K: Sink>(upper: &Picture, lower: &Picture, out: &mut K) -> Result<(), Failed>
    requires { lower.now.shape ≡ upper.now.shape }
    ensures ok { OnOk result (Appends (K.written out.old) (K.written out.new)
        (raw_text (frame_of_two (frame_of upper.now.shape))
        (woven_frame Bottom (frame_of upper.now.shape) lower.now.samples upper.now.samples))) }
    ensures err { OnErr result (GrewShort (K.written out.old) (K.written out.new)
        (raw_text (frame_of_two (frame_of upper.now.shape))
        (woven_frame Bottom (frame_of upper.now.shape) lower.now.samples upper.now.samples))) }
    ensures cause { HasCause (K.faults out.old) (K.faults out.new) result }
{
    let mut writer = RawWriter::new(upper.shape());
    write_alternating(upper, lower, Component::Luma, &mut writer, out)?;
    write_alternating(upper, lower, Component::C1, &mut writer, out)?;
    write_alternating(upper, lower, Component::C2, &mut writer, out)?;
    writer.finish(out)
}

// Writes one field of a frame.
fn write_field<K: Sink>(
    frame: &Picture,
    field: &PictureShape,
    second: bool,
    order: Order,
    writer: &mut RawWriter,
    out: &mut K,
) -> Result<(), Failed>
    requires doubled { frame_of frame.now.shape ≡ frame_of_two (frame_of field.now) }
    requires wide { writer.old.wide ≡ is_wide (frame_of field.now) }
    ensures wide { OnOk result (writer.new.wide ≡ writer.old.wide) }
    ensures ok { OnOk result (PassesOn (K.written out.old)
        (K.written out.new) writer.old.waiting writer.new.waiting
        (raw_text (frame_of field.now) (split order
        (frame_of field.now) second frame.now.samples))) }
    ensures err { OnErr result (GrewShort (K.written out.old) (K.written out.new)
        (writer.old.waiting
        ++ raw_text (frame_of field.now)
        (split order (frame_of field.now) second frame.now.samples))) }
    ensures cause { HasCause (K.faults out.old) (K.faults out.new) result }
{
    let line = line_of(order, second);
    write_split(frame, field, Component::Luma, line, writer, out)?;
    write_split(frame, field, Component::C1, line, writer, out)?;
    write_split(frame, field, Component::C2, line, writer, out)
}

/// Writes both fields of a frame.
pub(crate) fn write_fields<K: Sink>(
    frame: &Picture,
    field: &PictureShape,
    order: Order,
    out: &mut K,
) -> Result<(), Failed>
    requires { frame_of frame.now.shape ≡ frame_of_two (frame_of field.now) }
    ensures ok { let f = frame_of field.now in
        OnOk result (Appends (K.written out.old) (K.written out.new)
        (raw_text f (split order f false frame.now.samples)
        ++ raw_text f (split order f true frame.now.samples))) }
    ensures err { let f = frame_of field.now in
        OnErr result (GrewShort (K.written out.old) (K.written out.new)
        (raw_text f (split order f false frame.now.samples)
        ++ raw_text f (split order f true frame.now.samples))) }
    ensures cause { HasCause (K.faults out.old) (K.faults out.new) result }
{
    let mut writer = RawWriter::new(field);
    write_field(frame, field, false, order, &mut writer, out)?;
    write_field(frame, field, true, order, &mut writer, out)?;
    writer.finish(out)
}
