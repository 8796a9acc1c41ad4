//! What a conductor did in a run: one list, and what is read off it. Definitions, and lemmas on them. No code.
#![tactic(auto)]
