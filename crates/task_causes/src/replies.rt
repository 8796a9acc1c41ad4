//! Whether the reply to a Get is what was asked for.

ghost use Rattle.std.specs.Prelude.{◌≡◌, ◌<◌};
ghost use Rattle.task_acts.specs.Failures.{is_asked_for, is_range, is_same_range, is_whole_object};
ghost use Rattle.task_causes.specs.Pieces.{HasNumber};

use chunk_plan::part_range;
use s3_model::Reply;
use task_acts::Work;

fn is_whole_object(work: &Work, status: u16, length: u64) -> bool
    ensures { result ≡ is_whole_object work.now status length }
{
    status == 200 && length == work.size
}

fn is_same_range(range: Option<(u64, u64, u64)>, first: u64, last: u64, size: u64) -> bool
    ensures { result ≡ is_same_range range first last size }
{
    match range {
        Some(range) => range.0 == first && range.1 == last && range.2 == size,
        None => false,
    }
}

/// Whether the reply is the range of the piece of that number.
fn is_range(
    work: &Work,
    number: u32,
    status: u16,
    range: Option<(u64, u64, u64)>,
    length: u64,
) -> bool
    requires some { 0 < number }
    requires piece { HasNumber work.now number }
    ensures { result ≡ is_range work.now number status range length }
{
    let (place, asked) = part_range(work.size, work.piece, number);
    let is_same = is_same_range(range, place, place + (asked - 1), work.size);
    status == 206 && is_same && length == asked
}

/// Whether a reply is the whole of the planned size, or the range of its number; every other reply is.
pub(crate) fn is_asked_for(work: &Work, number: u32, reply: &Reply) -> bool
    requires { HasNumber work.now number }
    ensures { result ≡ is_asked_for work.now number reply.now }
{
    match reply {
        Reply::Got {
            status,
            range,
            length,
        } => {
            if number == 0 {
                is_whole_object(work, *status, *length)
            } else {
                is_range(work, number, *status, *range, *length)
            }
        }
        _ => true,
    }
}
