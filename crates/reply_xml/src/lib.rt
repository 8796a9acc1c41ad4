//! The part of XML 1.0 that an S3 service's documents use, read from the front.
#![tactic(auto)]

mod documents;
mod elements;
mod faults;
mod leaves;
mod only;
mod parts;
mod places;
mod reader;
mod runs;
mod tags;
mod texts;

pub use elements::Element;
pub use faults::DocFault;
pub use leaves::{FormedText, Leaf, Number, PlainText, Time, Truth};
pub use only::{Only, is_the};
pub use parts::{Parts, read_document};
pub use reader::Reader;
pub use tags::{Child, Tag};
pub use texts::Meaning;
