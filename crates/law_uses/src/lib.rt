//! The laws of worlds and files, called over a plain reading of talks.
#![tactic(auto)]

#[cfg(test)]
mod laws;
