//! What a dry run shows, and that it is true over every honest service: nothing is sent and nothing changes. No code.
#![tactic(auto)]
