//! The tasks of plans that can be carried out, as the promise of a run takes them. No code.
#![tactic(auto)]
