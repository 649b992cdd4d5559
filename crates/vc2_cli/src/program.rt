// What the program does with its words and its streams.
ghost use Rattle.std.specs.Prelude.{◌≡◌, drop, map, string_bytes, IfOk, IfErr};
ghost use Rattle.std.specs.IoError.{error_kind};
ghost use Rattle.std.specs.Vec.Iter.{into_iter_items};
ghost use Rattle.run_theory.specs.Runs.{change, IsUntouched};
ghost use Rattle.vc2_cli.specs.Program.{Exits, exit_of_kind};

use crate::status::{Status, exit_code};
use crate::top::run;
use std::alloc::{AllocError, Global};
use std::env::Args;
use std::io;
use std::io::ErrorKind;
use vc2_io::{Sink, Source};

// The words behind the program's name.
fn words_behind(alloc: Global, args: Args) -> Result<Vec<String>, AllocError>
    ensures { IfOk result (λ words. words.items ≡ drop 1 (into_iter_items args)) }
{
    let mut left = args;
    // the program's name
    let _ = left.next();
    let mut words = Vec::new(alloc);
    for word in left {
        words.push(word)?;
    }
    Ok(words)
}

// The exit status where the system gives no words.
fn exit_of_kind(kind: ErrorKind) -> u8
    ensures { result ≡ exit_of_kind kind }
{
    match kind {
        ErrorKind::OutOfMemory => exit_code(&Status::NoMemory),
        _ => 6,
    }
}

/// What `main` does: runs what the words ask for, and answers the exit status. `args` are the program's name and its
/// words, as the system gives them.
pub fn run_to_exit<S: Source, K: Sink, N: Sink>(
    alloc: Global,
    args: io::Result<Args>,
    src: &mut S,
    out: &mut K,
    note: &mut N,
) -> u8
    // `run` says what was read and written, and the exit status is that of its status.
    ensures runs { IfOk args (λ words. Exits (map string_bytes (drop 1 (into_iter_items words)))
        (change S.rest S.faults src.old src.new) (change K.written K.faults out.old out.new)
        (change N.written N.faults note.old note.new) result) }
    // Where the system gives no words, nothing is read or written.
    ensures no_words { IfErr args (λ error. (result ≡ exit_of_kind (error_kind error))
        × IsUntouched (change S.rest S.faults src.old src.new)
        × IsUntouched (change K.written K.faults out.old out.new)
        × IsUntouched (change N.written N.faults note.old note.new)) }
{
    let args = match args {
        Ok(args) => args,
        Err(error) => return exit_of_kind(error.kind()),
    };
    match words_behind(alloc, args) {
        Ok(words) => exit_code(&run(alloc, &words, src, out, note)),
        Err(_) => exit_code(&Status::NoMemory),
    }
}
