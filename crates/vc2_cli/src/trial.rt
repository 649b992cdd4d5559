// The command `trial`.
ghost use Rattle.std.specs.Prelude.{◌≡◌, ◌≤◌, ◌^◌, [], length, IfOk};
ghost use Rattle.sequence_header.specs.Coding.{IsShapeOf};
ghost use Rattle.channel_schedule.specs.Rates.{IsRate};
ghost use Rattle.channel_schedule.specs.Plans.{plan_of};
ghost use Rattle.vc2_words.specs.Settings.{asked_length};
ghost use Rattle.vc2_words.specs.Shown.{shown};
ghost use Rattle.vc2_words.specs.Lawful.{IsTrial};
ghost use Rattle.run_theory.specs.Ran.{HaltHasCause};
ghost use Rattle.stream_writer.specs.Writer.{IsSteepOkUnder};
ghost use Rattle.vc2_cli.specs.declared.status.Ending.TheVariants as ending;
ghost use Rattle.vc2_cli.specs.declared.status.Note.TheVariants as note;
ghost use Rattle.run_theory.specs.Runs.{Closes};
ghost use Rattle.vc2_cli.specs.Encode.{written_under};
ghost use Rattle.vc2_cli.specs.WholePictures.{stream_of, plan_for};
ghost use Rattle.vc2_cli.specs.Trial.{trial_pictures, trial_worst, trial_text};
ghost use Rattle.vc2_cli.specs.TrialTurn.{HasWritten, IsWant};

use crate::comparing::compare_video;
use crate::status::{Ending, Note};
use crate::stream_sink::StreamSink;
use crate::texts::trial_text;
use channel_schedule::{Outcome, Rate, Schedule, plan, replay};
use picture_codec::Picture;
use run_theory::Halt;
use slice_geometry::UnitShapes;
use std::alloc::Global;
use stream_units::{StreamWriter, WriteStop};
use trial_video::TrialVideo;
use vc2_io::{NoMemory, Sink, write_whole};
use vc2_words::{Settings, TrialPart, later_sequences};

/// What a trial finds: the bytes of its stream, the least schedule with which that runs, and the greatest difference.
#[derive(Clone, Copy)]
struct Found {
    bytes: u64,
    schedule: Schedule,
    worst: u16,
}

// The bytes of a stream of so many pictures.
fn stream_len(settings: &Settings, pictures: u32) -> usize
    requires { asked_length (shown settings.now).parts (shown settings.now).params
        (shown settings.now).group pictures ≤ 2 ^ 28 }
    ensures { result ≡ asked_length (shown settings.now).parts (shown settings.now).params
        (shown settings.now).group pictures }
{
    let sequences = 1 + later_sequences(settings.group, pictures) as usize;
    let ends = sequences * (13 + settings.header.byte_len() + 13);
    ends + pictures as usize * settings.params.unit_len() as usize
}

// A writer that has room for all stops for want of memory alone.
fn want_of(stop: WriteStop) -> NoMemory
    requires { IsWant stop }
{
    match stop {
        WriteStop::NoMemory => NoMemory,
        _ => unreachable!(),
    }
}

// The least schedule of the units. Replayed, it runs.
fn replayed_plan(shapes: &UnitShapes, rate: Rate, idle: u32) -> Schedule
    requires { IsRate rate }
    ensures { result ≡ plan_of shapes.now rate idle }
{
    let schedule = plan(shapes, rate, idle);
    match replay(shapes, &schedule) {
        Outcome::Runs => schedule,
        _ => unreachable!(),
    }
}

// Writes the unit of each picture, and then the end. Gives the least schedule.
fn write_video(
    settings: &Settings,
    part: TrialPart,
    video: &mut TrialVideo,
    picture: &mut Picture,
    writer: &mut StreamWriter,
    sink: &mut StreamSink,
) -> Result<Schedule, NoMemory>
    requires lawful { IsTrial (shown settings.now) part }
    requires pictures { IsShapeOf picture.old.shape (shown settings.now).parts }
    requires shape { picture.old.shape ≡ video.old.shape }
    requires begun { HasWritten (shown settings.now) part 0 video.old writer.old sink.old }
    ensures plan { IfOk result (λ schedule. schedule
        ≡ plan_for (shown settings.now) (trial_pictures (shown settings.now) part)) }
    ensures stream { IfOk result (λ schedule. sink.new.bytes
        ≡ stream_of (shown settings.now) (trial_pictures (shown settings.now) part)) }
{
    for _n in 0..part.pictures {
        video.next(picture);
        sink.steady();
        let written = writer.picture(picture, sink);
        sink.steady();
        match written {
            Ok(()) => {}
            Err(stop) => return Err(want_of(stop)),
        }
    }
    sink.steady();
    let ended = writer.end(sink);
    sink.steady();
    match ended {
        Ok(()) => Ok(replayed_plan(writer.shapes(), settings.rate, settings.idle)),
        Err(stop) => Err(want_of(stop)),
    }
}

// Writes the stream of the video.
fn encode_video(
    alloc: Global,
    settings: &Settings,
    part: TrialPart,
    sink: &mut StreamSink,
) -> Result<Schedule, NoMemory>
    requires lawful { IsTrial (shown settings.now) part }
    requires steep { IsSteepOkUnder (written_under (shown settings.now)) }
    requires empty { sink.old.bytes ≡ [] }
    requires room { sink.old.room
        ≡ asked_length (shown settings.now).parts (shown settings.now).params
        (shown settings.now).group part.pictures }
    ensures plan { IfOk result (λ schedule. schedule
        ≡ plan_for (shown settings.now) (trial_pictures (shown settings.now) part)) }
    ensures stream { IfOk result (λ schedule. sink.new.bytes
        ≡ stream_of (shown settings.now) (trial_pictures (shown settings.now) part)) }
{
    let shape = settings.header.picture_shape();
    let mut picture = match Picture::new(alloc, &shape) {
        Ok(picture) => picture,
        Err(_) => return Err(NoMemory),
    };
    let mut video = TrialVideo::new(&shape, part.seed);
    sink.steady();
    let started = StreamWriter::start(
        alloc,
        &settings.header,
        &settings.params,
        settings.first,
        settings.group,
        sink,
    );
    sink.steady();
    match started {
        Ok(mut writer) => {
            let result = write_video(settings, part, &mut video, &mut picture, &mut writer, sink);
            drop(writer);
            result
        }
        Err(stop) => Err(want_of(stop)),
    }
}

// Encodes the video and decodes its stream, which alone is held whole.
fn go_through(alloc: Global, settings: &Settings, part: TrialPart) -> Result<Found, NoMemory>
    requires lawful { IsTrial (shown settings.now) part }
    requires steep { IsSteepOkUnder (written_under (shown settings.now)) }
    ensures bytes { IfOk result (λ found. found.bytes
        ≡ length (stream_of (shown settings.now) (trial_pictures (shown settings.now) part))) }
    ensures plan { IfOk result (λ found. found.schedule
        ≡ plan_for (shown settings.now) (trial_pictures (shown settings.now) part)) }
    ensures worst { IfOk result (λ found. found.worst ≡ trial_worst (shown settings.now) part) }
{
    let mut sink = match StreamSink::new(alloc, stream_len(settings, part.pictures)) {
        Ok(sink) => sink,
        Err(_) => return Err(NoMemory),
    };
    let schedule = match encode_video(alloc, settings, part, &mut sink) {
        Ok(schedule) => schedule,
        Err(_) => return Err(NoMemory),
    };
    let bytes = sink.bytes().len() as u64;
    match compare_video(alloc, settings, part, sink.bytes()) {
        Ok(worst) => Ok(Found {
            bytes,
            schedule,
            worst,
        }),
        Err(_) => Err(NoMemory),
    }
}

/// Makes the pictures of a seed, encodes them, replays their schedule, decodes their stream, compares, and writes four
/// lines. Nothing is read.
pub(crate) fn trial<K: Sink>(
    alloc: Global,
    settings: &Settings,
    part: TrialPart,
    out: &mut K,
) -> Result<Ending, Halt>
    requires lawful { IsTrial (shown settings.now) part }
    requires steep { IsSteepOkUnder (written_under (shown settings.now)) }
    ensures told { Closes (ending.Done note.Nothing) (trial_text (shown settings.now) part)
        (K.written out.old) (K.written out.new) result }
    ensures cause { HaltHasCause 0 0 (K.faults out.old) (K.faults out.new) result }
{
    let found = match go_through(alloc, settings, part) {
        Ok(found) => found,
        Err(_) => return Err(Halt::NoMemory),
    };
    let slices = u64::from(part.pictures) * u64::from(settings.params.layout.count());
    let lines = trial_text(
        alloc,
        part,
        found.bytes,
        slices,
        &found.schedule,
        found.worst,
    );
    let text = match lines {
        Ok(text) => text,
        Err(_) => return Err(Halt::NoMemory),
    };
    match write_whole(out, text.as_bytes()) {
        Ok(()) => Ok(Ending::Done(Note::Nothing)),
        Err(_) => Err(Halt::OutFault),
    }
}
