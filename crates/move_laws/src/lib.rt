//! Definitions of what a run of many tasks keeps, and lemmas that it follows what happens; no code.
#![tactic(auto)]
