//! Queues, causes and works as callers use them.
#![tactic(auto)]

#[cfg(test)]
mod acts;
#[cfg(test)]
mod causes;
#[cfg(test)]
mod lanes;
#[cfg(test)]
mod sets;
#[cfg(test)]
mod trees;
#[cfg(test)]
mod works;
