//! The grammar of answers (RFC 9112): what bytes are an answer, or why they are none, and the parts that are read whole.
#![tactic(auto)]

mod chunks;
mod fields;
mod framing;
mod head;
mod head_room;
mod law;
mod lines;

pub use chunks::{read_size, read_trailers};
pub use framing::Framing;
pub use head::{HEAD_LIMIT, Head, read_head};
pub use head_room::HeadRoom;
pub use law::{no_end_yet, one_end};
