//! Values and faults as lines.

use crate::lines::push_value;
use s3_model::{Entry, Listed, Text};
use s3_replies::{
    DocFault, read_buckets, read_completed, read_copied, read_created, read_error, read_list,
};
use std::alloc::{AllocError, Global};
use std::mem;

fn push_text(out: &mut String, answer: Result<Text, DocFault>) -> Result<(), AllocError> {
    match answer {
        Ok(text) => write!(out, "Ok {:?}", text.as_str()),
        Err(fault) => push_value(out, fault),
    }
}

fn push_error(alloc: Global, out: &mut String, doc: &[u8]) -> Result<(), AllocError> {
    match read_error(alloc, doc) {
        Ok((code, message)) => write!(out, "Ok {:?} {:?}", code.as_str(), message.as_str()),
        Err(fault) => push_value(out, fault),
    }
}

fn push_completed(alloc: Global, out: &mut String, doc: &[u8]) -> Result<(), AllocError> {
    match read_completed(alloc, doc) {
        Ok(()) => out.push_str("Ok"),
        Err(fault) => push_value(out, fault),
    }
}

fn push_entry(out: &mut String, entry: &Entry) -> Result<(), AllocError> {
    let (key, etag) = (entry.key.as_str(), entry.etag.as_str());
    write!(out, " [{key:?} {} {etag:?} {}]", entry.size, entry.micros)
}

fn push_entries(out: &mut String, entries: &[Entry]) -> Result<(), AllocError> {
    for entry in entries {
        push_entry(out, entry)?;
    }
    Ok(())
}

fn push_prefix(out: &mut String, prefix: &Text) -> Result<(), AllocError> {
    write!(out, " {:?}", prefix.as_str())
}

fn push_prefixes(out: &mut String, prefixes: &[Text]) -> Result<(), AllocError> {
    for prefix in prefixes {
        push_prefix(out, prefix)?;
    }
    Ok(())
}

fn push_token(out: &mut String, token: &Option<Text>) -> Result<(), AllocError> {
    match token {
        Some(token) => write!(out, " token {:?}", token.as_str()),
        None => Ok(()),
    }
}

fn push_page(out: &mut String, page: &Listed) -> Result<(), AllocError> {
    out.push_str(if page.more { "Ok true" } else { "Ok false" })?;
    push_token(out, &page.token)?;
    push_entries(out, page.entries.as_slice())?;
    push_prefixes(out, page.prefixes.as_slice())
}

fn push_list(alloc: Global, out: &mut String, doc: &[u8]) -> Result<(), AllocError> {
    match read_list(alloc, doc) {
        Ok(page) => {
            let pushed = push_page(out, &page);
            mem::drop(page);
            pushed
        }
        Err(fault) => push_value(out, fault),
    }
}

fn push_rows(out: &mut String, entries: &[Entry]) -> Result<(), AllocError> {
    out.push_str("Ok")?;
    push_entries(out, entries)
}

fn push_buckets(alloc: Global, out: &mut String, doc: &[u8]) -> Result<(), AllocError> {
    match read_buckets(alloc, doc) {
        Ok(entries) => {
            let pushed = push_rows(out, entries.as_slice());
            mem::drop(entries);
            pushed
        }
        Err(fault) => push_value(out, fault),
    }
}

/// Adds what a reader answers to a document.
pub(crate) fn push_answer(
    alloc: Global,
    out: &mut String,
    reader: &str,
    doc: &[u8],
) -> Result<(), AllocError> {
    match reader {
        "created" => push_text(out, read_created(alloc, doc)),
        "copied" => push_text(out, read_copied(alloc, doc, false)),
        "part" => push_text(out, read_copied(alloc, doc, true)),
        "completed" => push_completed(alloc, out, doc),
        "buckets" => push_buckets(alloc, out, doc),
        "list" => push_list(alloc, out, doc),
        _ => push_error(alloc, out, doc),
    }
}
