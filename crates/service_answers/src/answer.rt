//! Answers, and the bytes in which they come.

ghost use Rattle.std.specs.Prelude.{◌≡◌, [], Some, None, length, string_bytes};
ghost use Rattle.std.specs.Option.{unwrap_or};

use crate::output::Output;
use s3_model::OutOfMemory;
use std::alloc::{AllocError, Global};

/// In which form an answer comes.
#[derive(Clone, Copy)]
pub enum Form {
    /// With its length, and the connection stays open.
    Sized,
    /// With its length, and `connection: close`.
    Closing,
    /// In chunks of so many bytes.
    Chunked(usize),
    /// With its length, in pieces of so many bytes.
    Split(usize),
    /// With its length, and one byte behind it.
    Followed,
}

/// An answer before it is bytes: its status, header lines of its own, and its body. That of a HEAD has no body, but
/// states the length of one.
#[derive(Drop)]
pub struct Answer {
    pub status: u16,
    pub lines: String,
    pub body: Vec<u8>,
    pub length: Option<u64>,
}

/// The words of a status.
fn phrase(status: u16) -> &'static str {
    match status {
        200 => "OK",
        204 => "No Content",
        206 => "Partial Content",
        400 => "Bad Request",
        403 => "Forbidden",
        404 => "Not Found",
        412 => "Precondition Failed",
        416 => "Range Not Satisfiable",
        500 => "Internal Server Error",
        501 => "Not Implemented",
        503 => "Service Unavailable",
        _ => "Other",
    }
}

fn push_chunk(alloc: Global, out: &mut Output, chunk: &[u8]) {
    let count = chunk.len();
    out.push_made(format!(in alloc; "{count:x}\r\n"));
    out.push(chunk);
    out.push(b"\r\n");
}

/// Adds a body in chunks of at least one byte and at most `most`, and the last chunk.
fn push_chunks(alloc: Global, out: &mut Output, body: &[u8], most: usize) {
    for chunk in body.chunks(most.max(1)) {
        push_chunk(alloc, out, chunk);
    }
    out.push(b"0\r\n\r\n");
}

impl Answer {
    /// An answer without lines of its own, whose body is a document.
    pub fn document(alloc: Global, status: u16, document: String) -> Answer
        ensures status { result.status ≡ status }
        ensures body { result.body.items ≡ string_bytes document }
        ensures length { result.length ≡ None }
    {
        Answer {
            status,
            lines: String::new(alloc),
            body: document.into_bytes(),
            length: None,
        }
    }

    /// An answer without lines of its own and without a body.
    pub fn empty(alloc: Global, status: u16) -> Answer
        ensures status { result.status ≡ status }
        ensures body { result.body.items ≡ [] }
        ensures length { result.length ≡ None }
    {
        Answer {
            status,
            lines: String::new(alloc),
            body: Vec::new(alloc),
            length: None,
        }
    }

    /// Adds a header line.
    pub(crate) fn add_line(&mut self, name: &str, value: &str) -> Result<(), AllocError>
        ensures status { self.new.status ≡ self.old.status }
        ensures body { self.new.body ≡ self.old.body }
        ensures length { self.new.length ≡ self.old.length }
    {
        write!(self.lines, "{name}: {value}\r\n")
    }

    /// The answer to a HEAD: the same without its body, whose length it states.
    pub fn without_body(self, alloc: Global) -> Answer
        ensures status { result.status ≡ self.status }
        ensures lines { result.lines ≡ self.lines }
        ensures body { result.body.items ≡ [] }
        ensures length { result.length ≡ Some (unwrap_or self.length (length self.body.items)) }
    {
        let Answer {
            status,
            lines,
            body,
            length,
        } = self;
        Answer {
            status,
            lines,
            length: Some(length.unwrap_or(body.len() as u64)),
            body: Vec::new(alloc),
        }
    }

    /// Whether an answer of this status has no body and states no length.
    fn is_bare(&self) -> bool {
        matches!(self.status, 204 | 304)
    }

    /// Adds the status line and the header lines, but for the length.
    fn push_start(&self, alloc: Global, out: &mut Output) {
        let (status, words, lines) = (self.status, phrase(self.status), self.lines.as_str());
        out.push_made(format!(in alloc; "HTTP/1.1 {status} {words}\r\n{lines}"));
    }

    fn push_length(&self, alloc: Global, out: &mut Output) {
        if !self.is_bare() {
            let length = self.length.unwrap_or(self.body.len() as u64);
            out.push_made(format!(in alloc; "content-length: {length}\r\n"));
        }
    }

    /// Adds all of it with a stated length; `more` are further header lines.
    fn push_sized(&self, alloc: Global, out: &mut Output, more: &str) {
        self.push_start(alloc, out);
        self.push_length(alloc, out);
        out.push(more.as_bytes());
        out.push(b"\r\n");
        out.push(&self.body);
    }

    fn push_chunked(&self, alloc: Global, out: &mut Output, most: usize) {
        if self.is_bare() || self.length.is_some() {
            return self.push_sized(alloc, out, "");
        }
        self.push_start(alloc, out);
        out.push(b"transfer-encoding: chunked\r\n\r\n");
        push_chunks(alloc, out, &self.body, most);
    }

    /// The bytes of the answer in a form.
    pub fn to_bytes(&self, alloc: Global, form: Form) -> Result<Vec<u8>, OutOfMemory> {
        let mut out = Output::make(alloc);
        match form {
            Form::Sized | Form::Split(_) => self.push_sized(alloc, &mut out, ""),
            Form::Closing => self.push_sized(alloc, &mut out, "connection: close\r\n"),
            Form::Chunked(most) => self.push_chunked(alloc, &mut out, most),
            Form::Followed => {
                self.push_sized(alloc, &mut out, "");
                out.push(b"x");
            }
        }
        out.into_bytes()
    }
}
