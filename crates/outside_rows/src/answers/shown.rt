//! Classes as text.

use crate::rows::{add, add_number, add_shown};
use s3_model::{Class, Entry, Listed, Reply, Text};

fn add_escaped(row: &mut String, byte: u8) {
    if write!(row, "\\x{byte:02x}").is_err() {
        row.clear();
    }
}

fn add_char(row: &mut String, char: char) {
    if row.push(char).is_err() {
        row.clear();
    }
}

/// Adds a text as its bytes are written in a row.
fn add_written(row: &mut String, text: &str) {
    for byte in text.bytes() {
        match byte {
            b' '..=b'[' | b']'..=b'~' => add_char(row, char::from(byte)),
            _ => add_escaped(row, byte),
        }
    }
}

/// Adds a text behind a word.
fn add_named(row: &mut String, name: &str, text: &Text) {
    add(row, name);
    add_written(row, text.as_str());
}

/// Adds an entry with its key, size, entity tag and time in microseconds since 1970.
fn add_entry(row: &mut String, entry: &Entry) {
    add_named(row, " [", &entry.key);
    add_number(row, entry.size);
    add_named(row, " ", &entry.etag);
    add_number(row, entry.micros);
    add(row, "]");
}

fn add_entries(row: &mut String, entries: &[Entry]) {
    for entry in entries {
        add_entry(row, entry);
    }
}

fn add_prefixes(row: &mut String, prefixes: &[Text]) {
    for prefix in prefixes {
        add_named(row, " {", prefix);
        add(row, "}");
    }
}

fn add_token(row: &mut String, token: &Option<Text>) {
    if let Some(token) = token {
        add_named(row, " then ", token);
    }
}

fn add_page(row: &mut String, page: &Listed) {
    add(row, if page.more { "page more" } else { "page last" });
    add_token(row, &page.token);
    add_entries(row, page.entries.as_slice());
    add_prefixes(row, page.prefixes.as_slice());
}

fn add_found(row: &mut String, size: u64, etag: &Text, micros: u64) {
    add(row, "found");
    add_number(row, size);
    add_named(row, " ", etag);
    add_number(row, micros);
}

fn add_range(row: &mut String, range: (u64, u64, u64)) {
    let (first, last, size) = range;
    add_number(row, first);
    add(row, "-");
    add_shown(row, last);
    add(row, "/");
    add_shown(row, size);
}

fn add_got(row: &mut String, status: u16, length: u64, range: Option<(u64, u64, u64)>) {
    add(row, "got");
    add_number(row, u64::from(status));
    add_number(row, length);
    if let Some(range) = range {
        add_range(row, range);
    }
}

fn plain_name(reply: &Reply) -> &'static str {
    match reply {
        Reply::Stored => "stored",
        Reply::Gone => "gone",
        Reply::Copied => "copied",
        _ => "completed",
    }
}

fn add_reply(row: &mut String, reply: &Reply) {
    match reply {
        Reply::Found { size, etag, micros } => add_found(row, *size, etag, *micros),
        Reply::Got {
            status,
            range,
            length,
        } => add_got(row, *status, *length, *range),
        Reply::Created { upload } => {
            add(row, "created ");
            add(row, upload.as_str());
        }
        Reply::PartStored { etag } => add_named(row, "part ", etag),
        Reply::Listed(page) => add_page(row, page),
        Reply::BucketList(buckets) => {
            add(row, "buckets");
            add_entries(row, buckets.as_slice());
        }
        _ => add(row, plain_name(reply)),
    }
}

/// Adds what an answer means.
pub(crate) fn add_class(row: &mut String, class: &Class) {
    match class {
        Class::Success(reply) => add_reply(row, reply),
        Class::Refusal { code, message } => {
            add_named(row, "refused ", code);
            add_named(row, ": ", message);
        }
        Class::Uncertain(why) => {
            add(row, "open: ");
            add_shown(row, *why);
        }
    }
}
