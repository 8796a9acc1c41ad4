//! Wires, files, outputs and the environment of the system.
#![tactic(auto)]

mod disk_files;
mod disk_paths;
mod disk_sources;
mod disk_temps;
mod real_env;
mod socket_wire;
mod std_sink;

pub use disk_files::DiskFiles;
pub use real_env::RealEnv;
pub use socket_wire::SocketWire;
pub use std_sink::StdSink;
