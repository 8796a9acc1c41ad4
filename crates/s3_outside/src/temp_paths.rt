//! Paths of temporary files.

ghost use Rattle.std.specs.Prelude.{◌≡◌, IfOk, length};
ghost use Rattle.std.specs.List.{AllPass};
ghost use Rattle.s3_model.specs.TempNames.{is_lower_hex};
ghost use Rattle.s3_outside.specs.FileCalls.{IsStem, IsTempPath};

use s3_model::{OutOfMemory, Text};
use std::alloc::Global;

/// The greatest length of the front of the destination's name, in bytes: with the 16 bytes behind it no name is longer
/// than 255.
const LONGEST_STEM: usize = 239;

/// The path of a temporary file beside a destination, with a number in its name.
#[tactic(auto, using(crate::proofs::TempLemmas::below_folder, crate::proofs::TempLemmas::without_folder))]
pub fn temp_path(alloc: Global, dest: &str, number: u32) -> Result<Text, OutOfMemory>
    ensures { IfOk result (IsTempPath dest.now) }
{
    let digits = hex_text(alloc, number)?;
    match dest.rsplit_once('/') {
        Some((front, name)) => {
            let pieces = [front, "/", stem_of(name), ".", digits.as_str(), ".s3part"];
            Text::joined(alloc, &pieces)
        }
        None => Text::joined(alloc, &[stem_of(dest), ".", digits.as_str(), ".s3part"]),
    }
}

fn stem_of(name: &str) -> &str
    ensures { IsStem name.now result.now }
{
    let (stem, _) = name.split_at(name.floor_char_boundary(LONGEST_STEM));
    stem
}

fn hex_text(alloc: Global, number: u32) -> Result<Text, OutOfMemory>
    ensures eight { IfOk result (λ text. length text ≡ 8) }
    ensures hex { IfOk result (AllPass is_lower_hex) }
{
    let high = [
        hex_digit(number >> 28),
        hex_digit(number >> 24),
        hex_digit(number >> 20),
        hex_digit(number >> 16),
    ];
    let low = [
        hex_digit(number >> 12),
        hex_digit(number >> 8),
        hex_digit(number >> 4),
        hex_digit(number),
    ];
    let [a, b, c, d] = high;
    let [e, f, g, h] = low;
    Text::joined(alloc, &[a, b, c, d, e, f, g, h])
}

// The last four bits.
fn hex_digit(number: u32) -> &'static str
    ensures one { length result.now ≡ 1 }
    ensures hex { AllPass is_lower_hex result.now }
{
    match number & 15 {
        0 => "0",
        1 => "1",
        2 => "2",
        3 => "3",
        4 => "4",
        5 => "5",
        6 => "6",
        7 => "7",
        8 => "8",
        9 => "9",
        10 => "a",
        11 => "b",
        12 => "c",
        13 => "d",
        14 => "e",
        _ => "f",
    }
}
