//! Maps from texts, in byte order.
#![tactic(auto)]

mod text_map;

pub use text_map::TextMap;
