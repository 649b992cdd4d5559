// Rows of worked inputs, one a line: a name, the words of a run, its input and its outcome, with ` | ` between them.
//
// Where the name is `M..=N`, the run is made once for each of these numbers, and the read of this number fails. The words may
// have `..` among them, as `words_of` says. The input is hexadecimal digits behind `#`. The outcome is the status, the output
// and the note, each as it is printed: bytes as hexadecimal digits behind `#`, or as a text, with `;` for the end of a line.
use crate::runs::{BY_BYTES, Ends, Sinks, WHOLE, run_digits};
use std::alloc::{AllocError, Global};
use std::process::Abort;
use std::test::Fail;
use vc2_cli::Status;

// The fields of a row.
#[derive(Clone, Copy)]
struct Row<'a> {
    name: &'a str,
    words: &'a str,
    input: &'a str,
    outcome: &'a str,
}

// The row of a line.
fn row_of(line: &str) -> Row<'_> {
    let mut fields = line.trim_start().splitn(4, " | ");
    let name = fields.next().unwrap_or("");
    let words = fields.next().unwrap_or("");
    let input = fields.next().unwrap_or("");
    let outcome = fields.next().unwrap_or("");
    Row {
        name,
        words,
        input: input.strip_prefix('#').unwrap_or(input),
        outcome,
    }
}

// A byte of a text that a run prints.
fn is_printed(byte: &u8) -> bool {
    matches!(byte, b'\n' | b' ' | b','..=b':' | b'=' | b'A'..=b'Z' | b'a'..=b'z')
}

// Bytes that are a text.
fn push_text(text: &mut String, bytes: &[u8]) -> Result<(), AllocError> {
    for byte in bytes {
        let glyph = if *byte == b'\n' {
            ';'
        } else {
            char::from(*byte)
        };
        text.push(glyph)?;
    }
    Ok(())
}

fn push_digits(text: &mut String, bytes: &[u8]) -> Result<(), AllocError> {
    text.push('#')?;
    for byte in bytes {
        write!(text, "{byte:02x}")?;
    }
    Ok(())
}

fn push_bytes(text: &mut String, bytes: &[u8]) -> Result<(), AllocError> {
    text.push_str(" | ")?;
    if !bytes.is_empty() && bytes.iter().all(is_printed) {
        push_text(text, bytes)
    } else {
        push_digits(text, bytes)
    }
}

// An outcome as rows have it.
fn outcome_of(alloc: Global, status: Status, sinks: &Sinks) -> Result<String, AllocError> {
    let mut text = format!(in alloc; "{status:?}")?;
    push_bytes(&mut text, sinks.out.bytes())?;
    push_bytes(&mut text, sinks.note.bytes())?;
    Ok(text)
}

// The run of a row.
fn run_row(alloc: Global, ends: &Ends, row: &Row) -> Result<String, Fail> {
    let mut sinks = Sinks::new(alloc, ends)?;
    let status = run_digits(alloc, row.words, row.input, ends, &mut sinks)?;
    Ok(outcome_of(alloc, status, &sinks)?)
}

fn check_row(rt: &impl Abort, alloc: Global, ends: &Ends, row: &Row) -> Result<(), Fail> {
    let found = run_row(alloc, ends, row)?;
    assert_eq!(rt; found.as_str(), row.outcome, "{}: {}", row.name, row.words);
    Ok(())
}

// A row over these ends, or where its name has the numbers of reads, in each of which one of them fails.
fn check_reads(rt: &impl Abort, alloc: Global, ends: &Ends, row: &Row) -> Result<(), Fail> {
    let Some((first, last)) = row.name.split_once("..=") else {
        return check_row(rt, alloc, ends, row);
    };
    for read in first.parse::<u64>()?..=last.parse::<u64>()? {
        check_row(rt, alloc, &Ends { read, ..*ends }, row)?;
    }
    Ok(())
}

/// Each row over these ends.
pub(crate) fn check_rows(
    rt: &impl Abort,
    alloc: Global,
    ends: &Ends,
    rows: &str,
) -> Result<(), Fail> {
    for line in rows.lines() {
        check_reads(rt, alloc, ends, &row_of(line))?;
    }
    Ok(())
}

/// Each row with its input whole, and with one byte a read.
pub(crate) fn check_all(rt: &impl Abort, alloc: Global, rows: &str) -> Result<(), Fail> {
    check_rows(rt, alloc, &WHOLE, rows)?;
    check_rows(rt, alloc, &BY_BYTES, rows)
}
