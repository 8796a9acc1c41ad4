//! What a run of the program promises of its outcomes over every honest service. Definitions alone.
#![tactic(auto)]
