//! Command lines, with what each asks for, or its first fault.
//!
//! Words are parted by one space. `''` is the empty word, `~` stands for a space in a word, and `@` for the two words
//! `--endpoint-url http://h`. A command is printed with its two places and its endpoint, and then with what it does not
//! have by default. Of its filters it says which of three names they keep, where they do not keep all.

pub(crate) mod shown;

use crate::commands::shown::push_command;
use crate::lines::{push_line, push_value};
use s3_words::read_words;
use std::alloc::{AllocError, Global};
use std::mem;

/// The word that a piece of a line stands for.
fn word_of(alloc: Global, piece: &str) -> Result<String, AllocError> {
    let mut word = String::new(alloc);
    if piece == "''" {
        return Ok(word);
    }
    for letter in piece.chars() {
        word.push(if letter == '~' { ' ' } else { letter })?;
    }
    Ok(word)
}

fn push_word(alloc: Global, words: &mut Vec<String>, piece: &str) -> Result<(), AllocError> {
    let word = word_of(alloc, piece)?;
    words.push(word)?;
    Ok(())
}

/// Adds the word, or the two words, that a piece of a line stands for.
fn push_piece(alloc: Global, words: &mut Vec<String>, piece: &str) -> Result<(), AllocError> {
    if piece == "@" {
        push_word(alloc, words, "--endpoint-url")?;
        return push_word(alloc, words, "http://h");
    }
    push_word(alloc, words, piece)
}

/// The words of a line.
pub(crate) fn words_of(alloc: Global, line: &str) -> Result<Vec<String>, AllocError> {
    let mut words = Vec::new(alloc);
    if line.is_empty() {
        return Ok(words);
    }
    for piece in line.split(' ') {
        push_piece(alloc, &mut words, piece)?;
    }
    Ok(words)
}

fn push_answer(alloc: Global, out: &mut String, words: &[String]) -> Result<(), AllocError> {
    match read_words(alloc, words) {
        Ok(command) => {
            let pushed = push_command(out, &command);
            mem::drop(command);
            pushed
        }
        Err(fault) => push_value(out, fault),
    }
}

/// Adds a line with what it asks for.
pub(crate) fn push_row(alloc: Global, out: &mut String, line: &str) -> Result<(), AllocError> {
    push_line(out, line)?;
    let words = words_of(alloc, line)?;
    push_answer(alloc, out, &words)
}
