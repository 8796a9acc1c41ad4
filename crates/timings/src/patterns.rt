//! A pattern that is read, and matched with a path, again and again.

use path_filters::Pattern;
use s3_model::OutOfMemory;
use std::alloc::Global;
use std::hint::black_box;

/// How often the pattern was read.
pub(crate) fn read_again(alloc: Global, text: &str, rounds: u32) -> Result<u32, OutOfMemory> {
    let mut reads: u32 = 0;
    for _ in 0..rounds {
        Pattern::read(alloc, black_box(text))?;
        reads = reads.wrapping_add(1);
    }
    Ok(reads)
}

/// How often the path matched.
pub(crate) fn match_again(pattern: &Pattern, path: &str, rounds: u32) -> u32 {
    let mut matched: u32 = 0;
    for _ in 0..rounds {
        if pattern.matches(black_box(path)) {
            matched = matched.wrapping_add(1);
        }
    }
    matched
}
