// The words of runs, and the operands of the smallest stream.
use std::alloc::{AllocError, Global};

// The operands of the smallest stream.
const OPERANDS: &str =
    "size=1x1 sampling=444 fps=25/1 signal=1 wavelet=haar-flat depth=0 slices=1x1 bytes=1/1 matrix=0";

fn push_word(words: &mut Vec<String>, alloc: Global, word: &str) -> Result<(), AllocError> {
    words.push(String::from_str(alloc, word)?)?;
    Ok(())
}

// The operands of the smallest stream whose keys aren't among these words.
fn push_others(words: &mut Vec<String>, alloc: Global, text: &str) -> Result<(), AllocError> {
    for operand in OPERANDS.split_whitespace() {
        let (key, _) = operand.split_once('=').unwrap_or((operand, ""));
        if !text.contains(key) {
            push_word(words, alloc, operand)?;
        }
    }
    Ok(())
}

/// The words of a text, with spaces between them. The word `..` stands for the operands of the smallest stream whose keys
/// aren't in the text.
pub(crate) fn words_of(alloc: Global, text: &str) -> Result<Vec<String>, AllocError> {
    let mut words = Vec::new(alloc);
    for word in text.split_whitespace() {
        if word == ".." {
            push_others(&mut words, alloc, text)?;
        } else {
            push_word(&mut words, alloc, word)?;
        }
    }
    Ok(words)
}
