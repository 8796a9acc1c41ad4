//! An S3 service in memory, for tests: it reads and answers requests as bytes, and does what a script says.
#![tactic(auto)]

mod gate_wire;
mod mem_table;
mod mem_wire;
mod script;

pub use gate_wire::{Gate, GateWire};
pub use mem_table::{Coming, ForeignWrite, MemTable, SharedTable};
pub use mem_wire::MemWire;
pub use script::{Ending, Turn};
pub use service_answers::Form;
