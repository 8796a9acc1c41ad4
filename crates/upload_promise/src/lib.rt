//! What a run of at most one small upload shows, and that it is true over every honest service. No code.
#![tactic(auto)]
