//! The settings of the AWS CLI's two files and of its variables.
#![tactic(auto)]

mod amounts;
mod answers;
mod context;
mod keys;
mod kinds;
mod limits;
mod lines;
mod reader;
mod slots;
mod taken;
mod texts;
mod values;

pub use answers::{Choice, Refusal, decide, settings};
pub use keys::{AccessKey, is_visible};
pub use s3_model::{Config, EnvWords, Keys, ProfileFault, Settings};
pub use taken::take_settings;
