//! Which jobs came cut short.

ghost use Rattle.std.specs.Prelude.{◌≡◌, is_some};
ghost use Rattle.std.specs.Str.{bytes_eq};
ghost use Rattle.task_acts.specs.Failures.{is_cut_short, is_unfinished};

use jobs::{Carried, Ending, Job};
use s3_model::{Why, is_passing};
use task_acts::Work;

/// Whether a code has that name, compared whole.
pub(crate) fn is_code(code: &str, name: &str) -> bool
    ensures { result ≡ bytes_eq name.now code.now }
{
    name == code
}

/// Whether an ending behind so many attempts would be tried again.
fn is_unfinished(attempts: u32, made: usize, ending: &Ending) -> bool
    ensures { result ≡ is_unfinished attempts made ending.now }
{
    match ending {
        Ending::Cancelled(_) => true,
        Ending::Refused { code, .. } => made < attempts as usize && is_passing(code.as_str()),
        Ending::Uncertain(why) => made < attempts as usize && !matches!(why, Why::Memory),
        _ => false,
    }
}

fn has_cell(job: &Job) -> bool
    ensures { result ≡ is_some job.now.cell }
{
    job.cell.is_some()
}

/// Whether its cell cut a job short: it made no attempt, or the last one would be tried again and others were left.
pub fn is_cut_short(work: &Work, carried: &Carried) -> bool
    ensures { result ≡ is_cut_short work.now carried.now }
{
    let made = carried.tries.as_slice().len();
    let unfinished = is_unfinished(work.attempts, made, &carried.ending);
    has_cell(&carried.job) && unfinished
}
