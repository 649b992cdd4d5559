//! The program as one function for C.
#![tactic(auto)]

mod room;

ghost use Rattle.std.specs.Prelude.{◌≡◌, ◌≤◌, [], length, map, take, string_bytes, IfOk};
ghost use Rattle.std.specs.Str.{IsUtf8};
ghost use Rattle.vc2_cli.specs.Reply.{reply_to};
ghost use Rattle.vc2_c.specs.Call.{words_of, IsAnswer};

use room::Room;
use std::alloc::{AllocError, Global};
use vc2_cli::{Status, exit_code, run};
use vc2_io::SteadySource;

// The code of words that are not UTF-8.
const NOT_TEXT: u32 = 6;

// The pieces of a text between spaces.
fn pieces(alloc: Global, text: &str) -> Result<Vec<&str>, AllocError>
    ensures { IfOk result (λ pieces. map (λ x. x.now) pieces.items ≡ words_of text.now) }
{
    text.split(' ').collect(alloc)
}

// The words of a text, with a space between two.
fn words_of(alloc: Global, text: &str) -> Result<Vec<String>, AllocError>
    ensures { IfOk result (λ words. map string_bytes words.items ≡ words_of text.now) }
{
    let found = pieces(alloc, text)?;
    let mut words = Vec::new(alloc);
    for piece in found.iter() {
        words.push(String::from_str(alloc, piece)?)?;
    }
    Ok(words)
}

// Does what the words ask for, into two rooms that are empty.
fn answer(
    alloc: Global,
    words: &[String],
    input: &[u8],
    out: &mut Room<'_>,
    note: &mut Room<'_>,
) -> u32
    requires empty { (out.old.len ≡ 0) × (note.old.len ≡ 0) }
    requires sound { (out.old.failures ≡ 0) × (note.old.failures ≡ 0) }
    ensures loans { (out.new.cells.ghost_name ≡ out.old.cells.ghost_name)
        × (note.new.cells.ghost_name ≡ note.old.cells.ghost_name) }
    ensures sizes { (length out.new.cells.now ≡ length out.old.cells.now)
        × (length note.new.cells.now ≡ length note.old.cells.now) }
    ensures answer { IsAnswer (reply_to (map string_bytes words.now) input.now)
        (record { size = length out.old.cells.now; bytes = take out.new.len out.new.cells.now })
        (record { size = length note.old.cells.now; bytes = take note.new.len note.new.cells.now })
        result }
{
    let mut src = SteadySource::new(input);
    let status = run(alloc, words, &mut src, out, note);
    u32::from(exit_code(&status))
}

// The same of a text of words.
fn answer_text(
    alloc: Global,
    text: &str,
    input: &[u8],
    out: &mut Room<'_>,
    note: &mut Room<'_>,
) -> u32
    requires empty { (out.old.len ≡ 0) × (note.old.len ≡ 0) }
    requires sound { (out.old.failures ≡ 0) × (note.old.failures ≡ 0) }
    ensures loans { (out.new.cells.ghost_name ≡ out.old.cells.ghost_name)
        × (note.new.cells.ghost_name ≡ note.old.cells.ghost_name) }
    ensures sizes { (length out.new.cells.now ≡ length out.old.cells.now)
        × (length note.new.cells.now ≡ length note.old.cells.now) }
    ensures answer { IsAnswer (reply_to (words_of text.now) input.now)
        (record { size = length out.old.cells.now; bytes = take out.new.len out.new.cells.now })
        (record { size = length note.old.cells.now; bytes = take note.new.len note.new.cells.now })
        result }
{
    match words_of(alloc, text) {
        Ok(words) => answer(alloc, &words, input, out, note),
        Err(_) => u32::from(exit_code(&Status::NoMemory)),
    }
}

/// Does what the words ask for, as the program does: reads `input`, and writes into `out` and `note`, from their fronts on,
/// whose bytes it counts in `out_len` and `note_len`. `words` are those behind the program's name, in UTF-8, with one space
/// between two. It gives the program's exit status; 4 where a room is too small, 6 where the words are not UTF-8.
#[unsafe(no_mangle)]
pub extern "C" fn vc2_run(
    alloc: Global,
    words: &[u8],
    input: &[u8],
    out: &mut [u8],
    out_len: &mut usize,
    note: &mut [u8],
    note_len: &mut usize,
) -> u32
    // Behind words that are UTF-8 the call answers as the program does.
    ensures answer { IsUtf8 words.now → IsAnswer (reply_to (words_of words.now) input.now)
        (record { size = length out.new; bytes = take out_len.new out.new })
        (record { size = length note.new; bytes = take note_len.new note.new }) result }
    // Of other words nothing is done, and the code says so.
    ensures not_text { ¬ (IsUtf8 words.now) → (result ≡ 6) × (out_len.new ≡ 0)
        × (note_len.new ≡ 0) }
    // The counts lie in the rooms.
    ensures counts { (out_len.new ≤ length out.new) × (note_len.new ≤ length note.new) }
{
    let mut out_room = Room::new(out);
    let mut note_room = Room::new(note);
    let code = match str::from_utf8(words) {
        Ok(text) => answer_text(alloc, text, input, &mut out_room, &mut note_room),
        Err(_) => NOT_TEXT,
    };
    *out_len = out_room.len();
    *note_len = note_room.len();
    code
}

#[cfg(test)]
mod tests;
