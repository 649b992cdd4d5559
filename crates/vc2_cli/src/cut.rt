// The command `cut`.
ghost use Rattle.std.specs.Prelude.{◌≡◌};
ghost use Rattle.vc2_io.specs.declared.TheConstants.{READ_SIZE};
ghost use Rattle.channel_schedule.specs.Rates.{IsRate};
ghost use Rattle.unit_reader.specs.Soon.{Soon};
ghost use Rattle.stream_cut.specs.Cutter.{run_of};
ghost use Rattle.run_theory.specs.Runs.{change, Runs};
ghost use Rattle.vc2_words.specs.Lawful.{IsCutSettings};
ghost use Rattle.vc2_cli.specs.Cut.{ending_of, cut_command_machine};
ghost use Rattle.vc2_cli.specs.Endings.{IsDone, MayEndOtherwise};
ghost use Rattle.vc2_cli.specs.Mapped.{result_told};

use crate::status::{Ending, Note};
use channel_schedule::plan;
use run_theory::Halt;
use std::alloc::Global;
use stream_cut::{CutStop, Cutter};
use vc2_io::{Sink, Source};
use vc2_words::CutSettings;

// How the command comes out.
fn outcome_of(
    settings: &CutSettings,
    cutter: &Cutter,
    came: Result<(), CutStop>,
) -> Result<Ending, Halt>
    requires { IsRate settings.now.rate }
    ensures { result ≡ result_told (ending_of settings.now.rate settings.now.idle)
        (run_of cutter.now.shapes cutter.now.total came) }
{
    match came {
        Ok(()) => {
            let schedule = plan(cutter.shapes(), settings.rate, settings.idle);
            Ok(Ending::Done(Note::Encoded(schedule)))
        }
        Err(CutStop::Refused(refusal)) => Ok(Ending::Refused(refusal)),
        Err(CutStop::ReadFault) => Err(Halt::ReadFault),
        Err(CutStop::OutFault) => Err(Halt::OutFault),
        Err(CutStop::NoMemory) => Err(Halt::NoMemory),
    }
}

/// Writes the cut of a stream: each chosen picture once its unit stands whole.
pub(crate) fn cut<S: Source, K: Sink>(
    alloc: Global,
    settings: &CutSettings,
    src: &mut S,
    out: &mut K,
) -> Result<Ending, Halt>
    requires { IsCutSettings settings.now }
    ensures runs { Runs (cut_command_machine settings.now) IsDone
        (change S.rest S.faults src.old src.new)
        (change K.written K.faults out.old out.new) result }
    ensures soon { Soon MayEndOtherwise (cut_command_machine settings.now) READ_SIZE
        (S.rest src.old) (S.rest src.new) result }
{
    match Cutter::new(alloc, settings.from, settings.to) {
        Ok(mut cutter) => {
            let came = cutter.cut(src, out);
            let result = outcome_of(settings, &cutter, came);
            drop(cutter);
            result
        }
        Err(_) => Err(Halt::NoMemory),
    }
}
