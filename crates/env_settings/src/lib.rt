//! The settings of a run, from the variables and the files of its environment.
#![tactic(auto)]

mod fault;
mod files;
mod settings;
mod variables;

pub use fault::SettingsFault;
pub use settings::read_settings;
