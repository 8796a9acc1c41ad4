//! What a run whose one upload a lane carried shows, and that it is true over every honest service. No code.
#![tactic(auto)]
