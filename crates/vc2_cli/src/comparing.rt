// The pictures of a stream beside those of a video.
ghost use Rattle.std.specs.Prelude.{◌≡◌, ◌≤◌, ◌+◌, ◌^◌, ℕ, true, refl, IfOk};
ghost use Rattle.stream_writer.specs.Writer.{IsSteepOkUnder};
ghost use Rattle.vc2_words.specs.Shown.{shown};
ghost use Rattle.vc2_words.specs.Lawful.{IsTrial};
ghost use Rattle.stream_rows.specs.Units.{nothing_yet};
ghost use Rattle.vc2_cli.specs.Encode.{written_under};
ghost use Rattle.vc2_cli.specs.WholePictures.{stream_of};
ghost use Rattle.vc2_cli.specs.Trial.{IsComparedWhole, MayChange, Comparison, with_picture, comparing, trial_pictures, trial_worst};
ghost use Rattle.vc2_cli.specs.TrialTurn.{comparison_of, IsCompared};

use crate::decode::decoder_of;
use picture_codec::Picture;
use run_theory::Halt;
use std::alloc::Global;
use stream_units::{Item, Reason, Refusal, StreamTable};
use trial_video::{TrialVideo, worst_difference};
use unit_reader::{Reader, UnitCommand, run_units};
use vc2_io::{NoMemory, NullSink, Sink, SteadySource};
use vc2_words::{Settings, TrialPart};

/// How a comparison ends: with the greatest difference of a sample, or the stream is refused.
#[derive(Clone, Copy, Debug, PartialEq, Eq)]
pub enum ComparisonEnd {
    Compared(u16),
    Refused(Refusal),
}

/// The video before its next picture, a picture for it, how many are left to compare, and the greatest difference so far.
#[derive(Drop)]
struct Comparing {
    video: TrialVideo,
    picture: Picture,
    left: u32,
    worst: u16,
}

impl Comparing {
    // Compares the next picture, if one is left, with a decoded one.
    fn compare(&mut self, decoded: &Picture)
        requires shape { self.old.picture.shape ≡ self.old.video.shape }
        requires few { self.old.video.pictures + self.old.left ≤ 2 ^ 32 }
        ensures same_shape { self.new.picture.shape ≡ self.new.video.shape }
        ensures few { self.new.video.pictures + self.new.left ≤ 2 ^ 32 }
        ensures own { comparison_of self.new.video self.new.left self.new.worst
            ≡ with_picture self.old.left (comparison_of self.old.video self.old.left
            self.old.worst) decoded.now.samples }
    {
        if self.left == 0 {
            return;
        }
        self.left -= 1;
        self.video.next(&mut self.picture);
        let worst = worst_difference(&self.picture, decoded);
        self.worst = self.worst.max(worst);
    }
}

impl UnitCommand<StreamTable> for Comparing {
    type Ending = ComparisonEnd;

    ghost Own = { Comparison };

    ghost command = { comparing (record { frame = record { luma = record { w = 0; h = 0 }; colour = record { w = 0; h = 0 }; luma_depth = 0; colour_depth = 0 }; seed = 0; pictures = 0; left = 0; worst = 0 }) };

    ghost first = { nothing_yet };

    ghost own = { λ c t. comparison_of c.video c.left c.worst };

    ghost start = { λ c. comparison_of c.video c.left c.worst };

    ghost keeps = { λ c t. (c.picture.shape ≡ c.video.shape) × (c.video.pictures + c.left ≤ 2 ^ 32) × (t.makes_pictures ≡ true) };

    ghost is_done = { IsComparedWhole };

    ghost refused_is_no_end = { λ z w fault done. done };

    ghost may_go_on = { MayChange };

    fn open<K: Sink>(&mut self, _out: &mut K) -> Result<(), Halt> {
        Ok(())
    }

    fn turn<K: Sink>(&mut self, table: &StreamTable, item: Item, _out: &mut K) -> Result<(), Halt> {
        match decoder_of(table, item) {
            Some(decoder) => self.compare(decoder.picture()),
            None => {}
        }
        Ok(())
    }

    fn finish<K: Sink>(
        &mut self,
        _table: &StreamTable,
        _item: Item,
        _out: &mut K,
    ) -> Result<ComparisonEnd, Halt> {
        Ok(ComparisonEnd::Compared(self.worst))
    }

    fn rest<K: Sink>(&mut self, _table: &StreamTable, _out: &mut K) -> Result<ComparisonEnd, Halt> {
        // A stream ends with a unit, so this never comes.
        Ok(ComparisonEnd::Compared(self.worst))
    }

    fn refuse<K: Sink>(
        &mut self,
        _table: &StreamTable,
        place: u64,
        reason: Reason,
        _out: &mut K,
    ) -> Result<ComparisonEnd, Halt> {
        Ok(ComparisonEnd::Refused(Refusal { place, reason }))
    }

    ghost begins = { refl };

    ghost opens = { record { finished = λ z w unit bytes. tt; rested = λ z w. tt; refused = λ z w fault short. short } };
}

// The difference, of a comparison that went through the whole stream.
fn found_worst(outcome: Result<ComparisonEnd, Halt>) -> Result<u16, NoMemory>
    requires { (worst : ℕ) × IsCompared worst outcome }
    ensures { (worst : ℕ) → IsCompared worst outcome → IfOk result (λ told. told ≡ worst) }
{
    match outcome {
        Ok(ending) => match ending {
            ComparisonEnd::Compared(worst) => Ok(worst),
            _ => unreachable!(),
        },
        Err(halt) => match halt {
            Halt::NoMemory => Err(NoMemory),
            _ => unreachable!(),
        },
    }
}

/// Decodes the stream of a trial, and compares each picture with that of the video. Gives the greatest difference.
pub(crate) fn compare_video(
    alloc: Global,
    settings: &Settings,
    part: TrialPart,
    stream: &[u8],
) -> Result<u16, NoMemory>
    requires lawful { IsTrial (shown settings.now) part }
    requires steep { IsSteepOkUnder (written_under (shown settings.now)) }
    requires stream { stream.now ≡ stream_of (shown settings.now)
        (trial_pictures (shown settings.now) part) }
    ensures { IfOk result (λ worst. worst ≡ trial_worst (shown settings.now) part) }
{
    let shape = settings.header.picture_shape();
    let picture = match Picture::new(alloc, &shape) {
        Ok(picture) => picture,
        Err(_) => return Err(NoMemory),
    };
    let mut command = Comparing {
        video: TrialVideo::new(&shape, part.seed),
        picture,
        left: part.pictures,
        worst: 0,
    };
    match Reader::made(alloc, StreamTable::new(alloc, true)) {
        Ok(mut reader) => {
            let mut src = SteadySource::new(stream);
            let mut out = NullSink::new();
            let outcome = run_units(&mut reader, &mut command, &mut src, &mut out);
            drop(reader);
            found_worst(outcome)
        }
        Err(_) => Err(NoMemory),
    }
}
