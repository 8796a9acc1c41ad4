//! The names of jobs and of what wires show of their attempts, which the crates of tasks and lanes cite. Definitions alone.
#![tactic(auto)]
