//! Times in the documents of a service lie before the year 10000.
#![tactic(auto)]

mod law;

pub use law::answers_are_dated;
