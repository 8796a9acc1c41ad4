//! The data of transfers between local files and an S3 service, and the definitions that contracts of every crate above
//! cite.
#![tactic(auto)]

mod answers;
mod bytes;
mod cases;
mod civil_times;
mod content_types;
mod crossing;
mod faults;
mod list;
mod outcomes;
mod places;
mod requests;
mod settings;
mod tasks;
mod text;
mod tries;
mod upload_id;

pub use answers::{Answered, Class, Listed, Reply, Talked, Why, is_passing};
pub use bytes::{Bytes, Part};
pub use cases::Cases;
pub use civil_times::{CivilTime, civil_time};
pub use content_types::content_of;
pub use faults::{
    BadListing, EndpointFault, KeySkip, PlanFault, ProfileFault, UriFault, WalkFault, WordFault,
};
pub use list::{
    Entries, Journal, List, OutOfMemory, Outcomes, Pairs, Tasks, Texts, Warnings, nones,
};
pub use outcomes::{Cause, Event, FileCall, JobId, Outcome, Reason};
pub use places::{Endpoint, Entry, Place};
pub use requests::{Ask, Op};
pub use settings::{Config, EnvWords, Keys, Limits, Settings};
pub use tasks::{Kind, Mode, Plan, Task, Times, Warning};
pub use text::{Text, ends_in_slash};
pub use tries::{Mark, Tries};
pub use upload_id::UploadId;
