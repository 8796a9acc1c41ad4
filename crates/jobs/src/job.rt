//! Jobs of lanes.

use crate::cell::CancelCell;
use crate::what::What;
use s3_model::{JobId, Part};
use s3_signing::HexHash;
use std::marker::Model;

/// One request of the planning or of a task, with all that it needs.
///
/// A job of the planning asks for the entry of an object, a page of a listing or all buckets, and its id has that op.
/// A step's op is one of its task's kind, the removal of a moved source, or the end of an upload that is given up; the
/// objects, the upload and the entity tags that its request names are there. The range of a copied part or of a Get
/// with a number has at least one byte, and ends below 2^64. Exactly a Put, a Part and a Get have a part; that of a
/// Get has the room of its range.
#[derive(Drop)]
pub struct Job {
    pub id: JobId,
    pub what: What,
    /// The bytes to send, or the room for the bytes that come.
    pub part: Option<Part>,
    /// The SHA-256 of the part's bytes in hexadecimal digits, where it was made. Contracts leave it out.
    pub hash: Option<HexHash>,
    /// The cell by which it is cancelled, if it may be.
    pub cell: Option<CancelCell>,
    /// How many attempts were made where it was given before, else 0; at most 9.
    pub had: u32,
}

impl Model for Job {
    ghost use Rattle.jobs.specs.Jobs.{IsJob, SeenJob};

    ghost Value = { SeenJob };

    ghost view = { λ j. record { id = j.id; what = j.what; part = j.part; cell = j.cell; had = j.had } };

    ghost invariant = { λ j. IsJob j.id j.what j.part j.hash j.had };
}
