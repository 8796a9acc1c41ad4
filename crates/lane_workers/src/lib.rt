//! Lanes as the workers of an executor: wires become lanes, each behind a thread of its own, and come back as wires.
#![tactic(auto)]

mod lane_worker;
mod lanes;

pub use lane_worker::LaneWorker;
pub use lanes::{give_back, lanes_come_back, make_lanes};
