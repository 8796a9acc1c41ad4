//! How an answer's body is framed.

/// How the end of an answer's body is found (RFC 9112, section 6.3).
#[derive(Clone, Copy)]
pub enum Framing {
    NoBody,
    Length(u64),
    Chunked,
    /// The body ends with the connection.
    ToClose,
}
