//! The jobs that are out in each of many lanes, and the freest lane.
#![tactic(auto)]

mod job_queue;
mod lane_queues;

pub use lane_queues::LaneQueues;
