//! What the ending of a job gives to its task.

ghost use Rattle.std.specs.Prelude.{◌≡◌, is_some};
ghost use Rattle.jobs.specs.declared.ending.Ending.TheVariants as ending;
ghost use Rattle.task_acts.specs.Failures.{ended_cause};
ghost use Rattle.task_acts.specs.Kept.{created_in, etag_in};
ghost use Rattle.task_causes.specs.Pieces.{HasNumber};

use jobs::Ending;
use s3_model::{Cause, JobId, Reply, Text, UploadId};
use std::mem;
use task_acts::Work;
use task_causes::ended_cause;

/// The cause that an ending shows, if it shows one, and the entity tag or the upload that it named.
#[derive(Drop)]
pub(crate) struct Gains {
    pub(crate) cause: Option<Cause>,
    pub(crate) tag: Option<Text>,
    pub(crate) upload: Option<UploadId>,
}

/// The upload that a reply named.
fn created(ending: &Ending) -> Option<UploadId>
    ensures { result ≡ created_in ending.now }
{
    match ending {
        Ending::Gained(Reply::Created { upload }) => Some(upload.copy()),
        _ => None,
    }
}

/// Whether a reply names the entity tag of a part.
fn has_tag(ending: &Ending) -> bool
    ensures { result ≡ is_some (etag_in ending.now) }
{
    matches!(ending, Ending::Gained(Reply::PartStored { .. }))
}

fn tag_of(reply: Reply) -> Option<Text>
    ensures { result ≡ etag_in (ending.Gained reply) }
{
    match reply {
        Reply::PartStored { etag } => Some(etag),
        other => {
            mem::drop(other);
            None
        }
    }
}

/// The entity tag that a reply named.
fn tag_in(ending: Ending) -> Option<Text>
    ensures { result ≡ etag_in ending }
{
    match ending {
        Ending::Gained(reply) => tag_of(reply),
        other => {
            mem::drop(other);
            None
        }
    }
}

pub(crate) fn gains_of(work: &Work, id: JobId, ending: Ending) -> Gains
    requires { HasNumber work.now id.number }
    ensures cause { result.cause ≡ ended_cause work.now id.op id.number ending }
    ensures tag { result.tag ≡ etag_in ending }
    ensures upload { result.upload ≡ created_in ending }
{
    let upload = created(&ending);
    if has_tag(&ending) {
        Gains {
            cause: None,
            tag: tag_in(ending),
            upload,
        }
    } else {
        Gains {
            cause: ended_cause(work, id.op, id.number, ending),
            tag: None,
            upload,
        }
    }
}
