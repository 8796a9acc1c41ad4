//! Jobs of lanes: one request of a plan or of a task, the cell by which it is cancelled, and what came of it.
#![tactic(auto)]

mod ask;
mod carried;
mod cell;
mod ending;
mod job;
mod what;

pub use ask::ask_of;
pub use carried::Carried;
pub use cell::CancelCell;
pub use ending::Ending;
pub use job::Job;
pub use what::What;
