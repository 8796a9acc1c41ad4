//! Buckets, objects and uploads in memory: what an S3 service holds, and what each request makes of it.
#![tactic(auto)]

mod fault;
mod listings;
mod object;
mod parts;
mod table;
mod upload;
mod uploads;

pub use fault::{Refusal, TableFault};
pub use listings::Query;
pub use object::{MemObject, MemPart};
pub use parts::PartMap;
pub use table::{ObjectTable, Source};
pub use upload::{MemEnding, MemUpload};
