//! Requests of the S3 API as bytes read, and their answers written as bytes, as a service does.
#![tactic(auto)]

mod answer;
mod asks;
mod document;
mod documents;
mod escapes;
mod faults;
mod gained;
mod head;
mod listing_answers;
mod output;
mod reader;
mod replies;
mod target;
mod times;

pub use answer::{Answer, Form};
pub use asks::ask_of;
pub use gained::{FoundObject, Gained, GotObject};
pub use head::{RequestHead, head_length, whole_length};
pub use replies::{answer_of, not_understood, refusal};
