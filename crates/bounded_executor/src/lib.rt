//! Workers behind lanes, each in a thread of its own, and a boss that gives them jobs through one desk.
#![tactic(auto)]

mod bell;
mod beside;
mod boss;
mod desk;
mod lane;
mod open;
mod outbox;
mod parts;
mod ready;
mod run;
mod station;
mod worker;

pub use boss::Boss;
pub use desk::Desk;
pub use run::{close_desk, open_desk, with_stack_size, with_workers};
pub use worker::Worker;
