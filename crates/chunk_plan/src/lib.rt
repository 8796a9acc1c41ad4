//! How the bytes of an object are cut into parts, and the buffers that parts travel in.
#![tactic(auto)]

mod chunks;
mod cover;
mod pool;

pub use chunks::{adjust, part_count, part_range};
pub use cover::pieces_cover_the_object;
pub use pool::PartPool;
pub use s3_model::Part;
