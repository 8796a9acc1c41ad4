//! Runs that ask questions of their planning over one lane and do nothing else: what the wire of the lane shows of them,
//! and that such a run keeps its promise. No code.
#![tactic(auto)]
