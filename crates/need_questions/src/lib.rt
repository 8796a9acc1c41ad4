//! Questions for the needs of a command, one need behind the other: they ask as the law of plannings takes it. No code.
#![tactic(auto)]
