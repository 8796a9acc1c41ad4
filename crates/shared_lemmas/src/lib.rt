//! Lemmas on lists, options and finite maps that several crates use. No code.
#![tactic(auto)]
