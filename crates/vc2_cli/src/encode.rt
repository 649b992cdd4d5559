// The command `encode`.
ghost use Rattle.std.specs.Prelude.{◌≡◌, ◌+◌, ◌<◌, ◌≤◌, ◌^◌, ◌%◌, None, false, Ok, ℕ, List, Option};
ghost use Rattle.slice_geometry.specs.Slicing.{slice_count};
ghost use Rattle.sequence_header.specs.Coding.{IsShapeOf};
ghost use Rattle.channel_schedule.specs.Rates.{IsRate};
ghost use Rattle.vc2_words.specs.Shown.{shown};
ghost use Rattle.vc2_words.specs.Lawful.{AreLawfulWords};
ghost use Rattle.run_theory.specs.Ran.{HaltHasCause};
ghost use Rattle.stream_writer.specs.Writer.{next_place, next_previous, IsSteepOkUnder};
ghost use Rattle.run_theory.specs.Runs.{change, Closes};
ghost use Rattle.vc2_cli.specs.Encode.{written_under, raw_size, refused_at, is_half, ended_plan, ended_at, last_text, told_of_fault, told_of_stop};
ghost use Rattle.vc2_cli.specs.EncodeTurn.{WritesPictures, EncodeRuns};

use crate::status::{Ending, Note};
use channel_schedule::plan;
use picture_codec::Picture;
use raw_video::{RawFault, RawReader, RawStep};
use run_theory::Halt;
use std::alloc::Global;
use stream_units::{Reason, Refusal, StreamWriter, WriteStop};
use vc2_io::{INPUT_LIMIT, Sink, Source};
use vc2_words::Settings;

fn refused(place: u64, reason: Reason) -> Result<Ending, Halt>
    ensures { result ≡ Ok (refused_at place reason) }
{
    Ok(Ending::Refused(Refusal { place, reason }))
}

// There is no next picture.
fn without_picture(fault: RawFault) -> Result<Ending, Halt>
    ensures { result ≡ told_of_fault fault }
{
    match fault {
        RawFault::SampleTooLarge(place) => refused(place, Reason::SampleTooLarge),
        RawFault::RawTruncated(place) => refused(place, Reason::RawTruncated),
        RawFault::TooLong => refused(INPUT_LIMIT, Reason::StreamTooLong),
        RawFault::ReadFault => Err(Halt::ReadFault),
    }
}

// The unit of the picture at this place was not written.
fn without_unit(stop: WriteStop, place: u64) -> Result<Ending, Halt>
    ensures { result ≡ told_of_stop place stop }
{
    match stop {
        WriteStop::StreamTooLong => refused(place, Reason::StreamTooLong),
        WriteStop::OutFault => Err(Halt::OutFault),
        WriteStop::MatrixTooSteep | WriteStop::NoMemory => Err(Halt::NoMemory),
    }
}

// Whether the pictures are fields, and the last frame has only one.
fn is_half(coding: u32, pictures: u64) -> bool
    ensures { result ≡ is_half coding pictures }
{
    coding == 1 && pictures % 2 == 1
}

// The input is over at this place, behind so many pictures.
fn finish<K: Sink>(
    settings: &Settings,
    pictures: u64,
    place: u64,
    writer: &mut StreamWriter,
    out: &mut K,
) -> Result<Ending, Halt>
    requires rate { IsRate settings.now.rate }
    requires open { writer.old.ended ≡ false }
    requires going { writer.old.stop ≡ None }
    ensures closes { let half = is_half settings.now.header.coding pictures in
        Closes (ended_at half place (ended_plan (shown settings.now) writer.old.shapes
        (next_place writer.old))) (last_text half (next_previous writer.old))
        (K.written out.old) (K.written out.new) result }
    ensures cause { HaltHasCause 0 0 (K.faults out.old) (K.faults out.new) result }
{
    if is_half(settings.header.parts().coding, pictures) {
        return refused(place, Reason::HalfFrame);
    }
    match writer.end(out) {
        Ok(()) => {
            let schedule = plan(writer.shapes(), settings.rate, settings.idle);
            Ok(Ending::Done(Note::Encoded(schedule)))
        }
        Err(WriteStop::OutFault) => Err(Halt::OutFault),
        Err(_) => Err(Halt::NoMemory),
    }
}

// There are no more pictures than bytes.
fn most_turns() -> u64
    ensures { result ≤ 2 ^ 41 }
{
    INPUT_LIMIT + 1
}

// Reads picture after picture, and writes the unit of each before the next is read.
fn encode_pictures<S: Source, K: Sink>(
    settings: &Settings,
    reader: &mut RawReader,
    picture: &mut Picture,
    writer: &mut StreamWriter,
    src: &mut S,
    out: &mut K,
) -> Result<Ending, Halt>
    requires rate { IsRate settings.now.rate }
    requires reader { reader.old.refused ≡ false }
    requires shape { reader.old.shape ≡ picture.old.shape }
    requires pictures { IsShapeOf picture.old.shape writer.old.settings.parts }
    requires unended { writer.old.ended ≡ false }
    requires going { writer.old.stop ≡ None }
    ensures { (rest out0 : Option (List ℕ)) → 0 < raw_size (shown settings.now)
        → 1 ≤ slice_count (shown settings.now).params.slicing
        → WritesPictures (shown settings.now) 0 rest (S.rest src.old) out0
        (K.written out.old) reader.old writer.old
        → EncodeRuns (shown settings.now)
        (record {
          was = rest;
          is = S.rest src.new;
          faults_were = S.faults src.old;
          faults_are = S.faults src.new;
        })
        (record {
          was = out0;
          is = K.written out.new;
          faults_were = K.faults out.old;
          faults_are = K.faults out.new;
        }) result }
{
    for turn in 0..most_turns() {
        let place = reader.place();
        match reader.next(src, picture) {
            Ok(RawStep::Picture) => {}
            Ok(RawStep::End) => return finish(settings, turn, place, writer, out),
            Err(fault) => return without_picture(fault),
        }
        match writer.picture(picture, out) {
            Ok(()) => {}
            Err(stop) => return without_unit(stop, place),
        }
    }
    Err(Halt::NoMemory)
}

/// Reads raw video, and writes its stream: the first unit before anything is read, and the unit of each picture before
/// the next is read.
pub(crate) fn encode<S: Source, K: Sink>(
    alloc: Global,
    settings: &Settings,
    src: &mut S,
    out: &mut K,
) -> Result<Ending, Halt>
    requires lawful { AreLawfulWords (shown settings.now) }
    requires steep { IsSteepOkUnder (written_under (shown settings.now)) }
    ensures { EncodeRuns (shown settings.now)
        (change S.rest S.faults src.old src.new)
        (change K.written K.faults out.old out.new) result }
{
    let shape = settings.header.picture_shape();
    let mut picture = match Picture::new(alloc, &shape) {
        Ok(picture) => picture,
        Err(_) => return Err(Halt::NoMemory),
    };
    let started = StreamWriter::start(
        alloc,
        &settings.header,
        &settings.params,
        settings.first,
        settings.group,
        out,
    );
    match started {
        Ok(mut writer) => {
            let mut reader = RawReader::new(&shape);
            let result = encode_pictures(
                settings,
                &mut reader,
                &mut picture,
                &mut writer,
                src,
                out,
            );
            drop(writer);
            result
        }
        Err(stop) => without_unit(stop, 0),
    }
}
