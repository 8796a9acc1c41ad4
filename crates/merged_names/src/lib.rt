//! Names of two sides, put together in byte order: definitions and lemmas, no code.
#![tactic(auto)]
