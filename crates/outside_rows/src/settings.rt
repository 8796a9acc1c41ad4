//! Settings, with what each case gives.
//!
//! A line has a name and fields, parted by ` | `. `words`: an id, a secret, a token, a region and a profile, where `-` is
//! none and a sixth word says that the profile was named; the config file; the credentials file. `places`: variables;
//! `--region` and `--profile`; the numbers of the reads that fail; and the files, as `/path=bytes`. In all of them `\xHH`
//! stands for a byte.

mod environments;
mod files;
mod shown;
mod spelled;

use crate::lines::word_and_rest;
use crate::rows::add;
use std::alloc::Global;

/// Adds the number of a case, and what the case gives.
pub(crate) fn add_row(alloc: Global, row: &mut String, line: &str) {
    let (number, case) = word_and_rest(line);
    let (name, fields) = word_and_rest(case);
    add(row, number);
    add(row, " ");
    match name {
        "words" => files::add_answer(alloc, row, fields),
        _ => environments::add_answer(alloc, row, fields),
    }
}
