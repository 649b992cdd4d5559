//! What the words ask for.

ghost use Rattle.std.specs.Prelude.{◌≡◌, ◌<◌, Ok, Err, map, string_bytes, MatchResult};
ghost use Rattle.vc2_words.specs.declared.keys.Name.TheVariants as names;
ghost use Rattle.vc2_words.specs.Commands as commands;
ghost use Rattle.vc2_words.specs.Commands.{command_seen, asked_by};
ghost use Rattle.vc2_words.specs.Settings.{parts_of, field_parts};
ghost use Rattle.vc2_words.specs.Plain.{IsPlain, IsPlainFor};

use crate::keys::{Key, Name, WordFault, name_of};
use crate::operands::{Given, read_operands};
use crate::settings::{
    CutSettings, FieldVideo, Settings, cut_of, given_buffer, given_rate, idle_of, is_top,
    settings_of, single, video_of,
};
use channel_schedule::Schedule;

/// What a trial asks for beside settings.
#[derive(Clone, Copy, Debug, PartialEq, Eq)]
pub struct TrialPart {
    pub seed: u32,
    pub pictures: u32,
}

/// What the words ask for.
#[derive(Clone, Copy, Debug, PartialEq, Eq)]
pub enum Command {
    Chain,
    Header,
    Decode,
    Check(Option<Schedule>),
    Encode(Settings),
    Trial(Settings, TrialPart),
    Weave(FieldVideo),
    Split(FieldVideo),
    /// By whether the first field has line 0 of the frame.
    Frames(bool),
    Proxy(u32),
    Cut(CutSettings),
}

fn schedule_of(given: &Given) -> Option<Schedule>
    ensures { result ≡ commands.schedule_of given.now.values }
{
    let rate = given_rate(given)?;
    let delay = given.get(Key::Delay)?.get(0);
    let size = given_buffer(given)?;
    let idle = idle_of(given);
    Some(Schedule {
        rate,
        delay,
        size,
        idle,
    })
}

fn encode_of(given: &Given) -> Result<Command, WordFault>
    requires { IsPlain (parts_of given.now.values) }
    ensures { MatchResult result (λ command. commands.command_of names.Encode given.now.values
        ≡ Ok (command_seen command)) (λ fault. commands.command_of names.Encode given.now.values
        ≡ Err fault) }
{
    match settings_of(given, None) {
        Ok(settings) => Ok(Command::Encode(settings)),
        Err(rule) => Err(WordFault::SettingsRefused(rule)),
    }
}

fn trial_of(given: &Given) -> Result<Command, WordFault>
    requires { IsPlain (parts_of given.now.values) }
    ensures { MatchResult result (λ command. commands.command_of names.Trial given.now.values
        ≡ Ok (command_seen command)) (λ fault. commands.command_of names.Trial given.now.values
        ≡ Err fault) }
{
    let part = TrialPart {
        seed: single(given, Key::Seed),
        pictures: single(given, Key::Pictures),
    };
    match settings_of(given, Some(part.pictures)) {
        Ok(settings) => Ok(Command::Trial(settings, part)),
        Err(rule) => Err(WordFault::SettingsRefused(rule)),
    }
}

fn weave_of(given: &Given) -> Result<Command, WordFault>
    requires { IsPlain (field_parts given.now.values) }
    ensures { MatchResult result (λ command. commands.command_of names.Weave given.now.values
        ≡ Ok (command_seen command)) (λ fault. commands.command_of names.Weave given.now.values
        ≡ Err fault) }
{
    match video_of(given) {
        Ok(video) => Ok(Command::Weave(video)),
        Err(rule) => Err(WordFault::SettingsRefused(rule)),
    }
}

fn split_of(given: &Given) -> Result<Command, WordFault>
    requires { IsPlain (field_parts given.now.values) }
    ensures { MatchResult result (λ command. commands.command_of names.Split given.now.values
        ≡ Ok (command_seen command)) (λ fault. commands.command_of names.Split given.now.values
        ≡ Err fault) }
{
    match video_of(given) {
        Ok(video) => Ok(Command::Split(video)),
        Err(rule) => Err(WordFault::SettingsRefused(rule)),
    }
}

fn cut_command_of(given: &Given) -> Result<Command, WordFault>
    ensures { MatchResult result (λ command. commands.command_of names.Cut given.now.values
        ≡ Ok (command_seen command)) (λ fault. commands.command_of names.Cut given.now.values
        ≡ Err fault) }
{
    match cut_of(given) {
        Ok(settings) => Ok(Command::Cut(settings)),
        Err(rule) => Err(WordFault::SettingsRefused(rule)),
    }
}

fn command_of(name: Name, given: &Given) -> Result<Command, WordFault>
    requires { IsPlainFor name (parts_of given.now.values) }
    ensures { MatchResult result (λ command. commands.command_of name given.now.values
        ≡ Ok (command_seen command)) (λ fault. commands.command_of name given.now.values
        ≡ Err fault) }
{
    match name {
        Name::Chain => Ok(Command::Chain),
        Name::Header => Ok(Command::Header),
        Name::Decode => Ok(Command::Decode),
        Name::Check => Ok(Command::Check(schedule_of(given))),
        Name::Encode => encode_of(given),
        Name::Trial => trial_of(given),
        Name::Weave => weave_of(given),
        Name::Split => split_of(given),
        Name::Frames => Ok(Command::Frames(is_top(given))),
        Name::Proxy => Ok(Command::Proxy(single(given, Key::Level))),
        Name::Cut => cut_command_of(given),
    }
}

/// The command that the words name with its settings, or their first fault. The words are those after the program's name.
pub fn read_words(words: &[String]) -> Result<Command, WordFault>
    ensures { MatchResult result (λ command. asked_by (map string_bytes words.now)
        ≡ Ok (command_seen command)) (λ fault. asked_by (map string_bytes words.now) ≡ Err fault) }
{
    if words.is_empty() {
        return Err(WordFault::NoCommand);
    }
    let name = match name_of(words[0].as_str()) {
        None => return Err(WordFault::UnknownCommand),
        Some(name) => name,
    };
    match read_operands(name, words) {
        Ok(given) => command_of(name, &given),
        Err(fault) => Err(fault),
    }
}
