//! A run before it is printed.

use crate::printout::Printout;
use crate::run::Run;
use s3_model::OutOfMemory;

/// A run before anything is printed, and the text that is to be.
#[derive(Drop)]
pub struct Executed {
    pub run: Run,
    pub text: Result<Printout, OutOfMemory>,
}

/// What a command came to, and whether it is a listing, of a key below which nothing was found.
#[derive(Drop)]
pub struct Worked {
    pub executed: Executed,
    pub lists: bool,
    pub missed: bool,
}
