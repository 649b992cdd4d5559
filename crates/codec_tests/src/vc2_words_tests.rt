//! Words, and what is read of them.
//!
//! A row of words tells what is read of them, and has each word behind a bar.

mod check_rows;
mod cut_words;
mod field_words;
mod group_rows;
mod idle_rows;
mod settings;
mod settings_rows;

use crate::told::{assert_told, behind};
use std::alloc::Global;
use std::process::Abort;
use vc2_words::{Command, WordFault, read_words};

/// What is read of words.
pub(crate) type Answer = Result<Command, WordFault>;

/// Puts the words of a line behind others.
fn add_words(rt: &impl Abort, alloc: Global, words: &mut Vec<String>, line: &str) {
    for text in line.split('|') {
        let word = String::from_str(alloc, text).expect(rt, "memory for a word");
        words.push(word).expect(rt, "memory for words");
    }
}

/// Whether there is an operand, and a line has none with its key.
fn is_needed(operand: &str, line: &str) -> bool {
    match operand.split_once('=') {
        Some((key, _)) => !line.contains(key),
        None => false,
    }
}

/// What is read of the words of a line, and behind them of those operands of a base whose keys the line has not.
pub(crate) fn read(rt: &impl Abort, alloc: Global, line: &str, base: &str) -> Answer {
    let mut words = Vec::new(alloc);
    add_words(rt, alloc, &mut words, line);
    for operand in base.split('|') {
        if is_needed(operand, line) {
            add_words(rt, alloc, &mut words, operand);
        }
    }
    let found = read_words(&words);
    drop(words);
    found
}

/// Asserts what is read of the words of each row.
fn expect_rows(rt: &impl Abort, alloc: Global, rows: &str) {
    for row in rows.lines() {
        assert_told(rt, row, read(rt, alloc, behind(rt, row), ""));
    }
}

#[test]
fn words_are_read_as_worked(rt: HostRuntime) {
    assert_told(&rt, "Err(NoCommand)|", read_words(&[]));
    expect_rows(&rt, rt.alloc(), check_rows::ROWS);
    expect_rows(&rt, rt.alloc(), idle_rows::ROWS);
    expect_rows(&rt, rt.alloc(), group_rows::ROWS);
    expect_rows(&rt, rt.alloc(), settings_rows::ROWS);
    expect_rows(&rt, rt.alloc(), field_words::ROWS);
    expect_rows(&rt, rt.alloc(), cut_words::ROWS);
}

/// A command and a word, and what is read of it and of ten thousand times the other.
const MANY: &str = "\
Err(RepeatedKey(2))|check|delay=1|
Err(UnknownKey(1))|check|delay|
Err(UnknownKey(1))|decode||
Err(UnknownCommand)|decodes||
";

/// Asserts what is read of a row's command and of ten thousand times its word.
fn expect_many(rt: &impl Abort, alloc: Global, row: &str) {
    let line = behind(rt, row);
    let many = behind(rt, line).repeat(alloc, 9999);
    let words = many.expect(rt, "memory for words");
    let mut all = String::from_str(alloc, line).expect(rt, "memory for a line");
    all.push_str(words.as_str()).expect(rt, "memory for a line");
    drop(words);
    let found = read(rt, alloc, all.as_str(), "");
    drop(all);
    assert_told(rt, row, found);
}

#[test]
fn ten_thousand_words(rt: HostRuntime) {
    for row in MANY.lines() {
        expect_many(&rt, rt.alloc(), row);
    }
}
