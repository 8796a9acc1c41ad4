//! One talk with a service: a request is sent, and the answer is read (RFC 9112).
#![tactic(auto)]

mod body;
mod chunked;
mod form;
mod incoming;
mod receive;
mod room;
mod send;
mod straight;
mod talk;

pub use room::AnswerRoom;
pub use talk::exchange;
