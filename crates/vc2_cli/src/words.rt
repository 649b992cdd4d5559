// The last rule of the words.
ghost use Rattle.std.specs.Prelude.{◌≡◌};
ghost use Rattle.vc2_words.specs.Commands as asked;
ghost use Rattle.vc2_words.specs.Shown.{shown};
ghost use Rattle.vc2_cli.specs.Words as words;
ghost use Rattle.vc2_cli.specs.Words.{seen_words, is_steep_ok};

use slice_encoder::steep_ok;
use vc2_words::{Command, Rule, Settings, WordFault};

// Whether the matrix leaves every slice writable.
fn is_steep_ok(settings: &Settings) -> bool
    ensures { result ≡ is_steep_ok (shown settings.now) }
{
    // The rules of parameters.
    let _ = settings.params.unit_len();
    let shape = settings.header.picture_shape();
    steep_ok(
        settings.params.layout.depth(),
        shape.luma_depth.max(shape.colour_depth),
        &settings.params.matrix,
    )
}

fn if_steep_ok(settings: &Settings, command: Command) -> Result<Command, WordFault>
    ensures { seen_words result
        ≡ words.if_steep_ok (shown settings.now) (asked.command_seen command) }
{
    if is_steep_ok(settings) {
        Ok(command)
    } else {
        Err(WordFault::SettingsRefused(Rule::MatrixTooSteep))
    }
}

/// What the words ask for, by their last rule too.
pub(crate) fn checked(command: Result<Command, WordFault>) -> Result<Command, WordFault>
    ensures { seen_words result ≡ words.checked (seen_words command) }
{
    match command {
        Ok(Command::Encode(settings)) => {
            let command = Command::Encode(settings);
            if_steep_ok(&settings, command)
        }
        Ok(Command::Trial(settings, part)) => {
            let command = Command::Trial(settings, part);
            if_steep_ok(&settings, command)
        }
        other => other,
    }
}
