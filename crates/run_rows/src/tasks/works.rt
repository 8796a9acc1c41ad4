//! The work that a line names.

ghost use Rattle.std.specs.Prelude.{◌≡◌, ◌≤◌, ◌<◌, ◌+◌, ◌^◌, IfSome, false};
ghost use Rattle.task_core.specs.Machine.{IsNumbered};

use crate::lines::text_of;
use row_words::{Wish, wish_of};
use s3_model::{Config, Limits, Place, Task};
use std::alloc::Global;
use std::mem;
use task_acts::Work;
use task_works::work_of;

const CONFIG: Config = Config {
    threshold: 8,
    chunk: 4,
    lanes: 1,
    queue: 1,
    buffers: 1,
    attempts: 3,
};

const LIMITS: Limits = Limits {
    min_part: 4,
    max_part: 64,
    max_parts: 4,
    max_object: 256,
};

fn task_of(alloc: Global, wish: &Wish) -> Task
    ensures { (result.size ≡ wish.now.size) × (result.fresh ≡ false) }
{
    Task {
        kind: wish.kind,
        moves: wish.moves,
        source: None,
        dest: Place::File {
            path: text_of(alloc, "f"),
        },
        size: wish.size,
        etag: text_of(alloc, "e"),
        micros: 0,
        content: None,
        fresh: false,
    }
}

/// The work of a line, or None where it names none.
pub(crate) fn work_named(alloc: Global, text: &str) -> Option<Work>
    ensures few { IfSome result (λ work. work.count + 1 < 2 ^ 32) }
    ensures attempts { IfSome result (λ work. work.attempts ≤ 10) }
    ensures numbers { IfSome result IsNumbered }
{
    let wish = wish_of(text)?;
    let task = task_of(alloc, &wish);
    let work = work_of(&task, &CONFIG, &LIMITS);
    mem::drop(task);
    Some(work)
}
