//! The cause that the last attempt of the deciding request shows.

use s3_model::Cause;

#[derive(Drop)]
pub enum LastCause {
    Nothing,
    Own(Cause),
    /// It is the cause of the first failure.
    First,
}
