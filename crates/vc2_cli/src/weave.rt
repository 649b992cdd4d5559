// The commands `weave` and `split`.
ghost use Rattle.std.specs.Prelude.{◌≡◌, Ok};
ghost use Rattle.vc2_words.specs.Lawful.{IsFieldVideo};
ghost use Rattle.run_theory.specs.Runs.{change, Runs};
ghost use Rattle.raw_video.specs.PictureSoon.{PicturesSoon};
ghost use Rattle.vc2_cli.specs.Endings.{IsDone, MayEndLater};
ghost use Rattle.vc2_cli.specs.Encode.{refused_at};
ghost use Rattle.vc2_cli.specs.Weave.{order_of, weave_command_machine, split_command_machine, outcome_of};

use crate::status::{Ending, Note};
use field_weave::{Order, WeaveStop, Weaver};
use run_theory::Halt;
use std::alloc::Global;
use stream_units::{Reason, Refusal};
use vc2_io::{INPUT_LIMIT, Sink, Source};
use vc2_words::FieldVideo;

pub(crate) fn order_of(top: bool) -> Order
    ensures { result ≡ order_of top }
{
    if top { Order::Top } else { Order::Bottom }
}

fn refused(place: u64, reason: Reason) -> Result<Ending, Halt>
    ensures { result ≡ Ok (refused_at place reason) }
{
    Ok(Ending::Refused(Refusal { place, reason }))
}

// How the command comes out.
fn outcome_of(came: Result<u64, WeaveStop>) -> Result<Ending, Halt>
    ensures { result ≡ outcome_of came }
{
    match came {
        Ok(_) => Ok(Ending::Done(Note::Nothing)),
        Err(WeaveStop::SampleTooLarge(place)) => refused(place, Reason::SampleTooLarge),
        Err(WeaveStop::RawTruncated(place)) => refused(place, Reason::RawTruncated),
        Err(WeaveStop::TooLong) => refused(INPUT_LIMIT, Reason::StreamTooLong),
        Err(WeaveStop::HalfFrame(place)) => refused(place, Reason::HalfFrame),
        Err(WeaveStop::ReadFault) => Err(Halt::ReadFault),
        Err(WeaveStop::OutFault) => Err(Halt::OutFault),
    }
}

/// Reads raw fields, and writes raw frames: each frame before the next field is read.
pub(crate) fn weave<S: Source, K: Sink>(
    alloc: Global,
    video: &FieldVideo,
    src: &mut S,
    out: &mut K,
) -> Result<Ending, Halt>
    requires { IsFieldVideo video.now }
    ensures runs { Runs (weave_command_machine video.now) IsDone
        (change S.rest S.faults src.old src.new)
        (change K.written K.faults out.old out.new) result }
    ensures soon { PicturesSoon MayEndLater (weave_command_machine video.now) (S.rest src.old)
        (S.rest src.new) }
{
    let shape = video.header.picture_shape();
    match Weaver::new(alloc, &shape, order_of(video.top)) {
        Ok(mut weaver) => {
            let result = weaver.weave(src, out);
            drop(weaver);
            outcome_of(result)
        }
        Err(_) => Err(Halt::NoMemory),
    }
}

/// Reads raw frames, and writes raw fields: both of a frame before the next is read.
pub(crate) fn split<S: Source, K: Sink>(
    alloc: Global,
    video: &FieldVideo,
    src: &mut S,
    out: &mut K,
) -> Result<Ending, Halt>
    requires { IsFieldVideo video.now }
    ensures runs { Runs (split_command_machine video.now) IsDone
        (change S.rest S.faults src.old src.new)
        (change K.written K.faults out.old out.new) result }
    ensures soon { PicturesSoon MayEndLater (split_command_machine video.now) (S.rest src.old)
        (S.rest src.new) }
{
    let shape = video.header.picture_shape();
    match Weaver::new(alloc, &shape, order_of(video.top)) {
        Ok(mut weaver) => {
            let result = weaver.split(src, out);
            drop(weaver);
            outcome_of(result)
        }
        Err(_) => Err(Halt::NoMemory),
    }
}
