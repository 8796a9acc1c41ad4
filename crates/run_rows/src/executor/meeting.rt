//! Workers are in threads of their own: two jobs that wait for each other both end.

ghost use Rattle.std.specs.Prelude.{◌≡◌, ◌≤◌, IfOk, vec_len};
ghost use Rattle.bounded_executor.specs.Desk.{SameDesk};

use crate::executor::carriers::take_all;
use bounded_executor::{Boss, Desk, Worker, with_workers};
use std::alloc::{AllocError, Global};
use std::mem;
use std::sync::atomic::{AtomicU32, Ordering};
use std::sync::{Arc, Wait};
use std::thread::{self, Threads};
use std::time::Duration;

// Waits until both jobs were begun, for at most 20,000 turns of a millisecond, and says whether they were.
#[derive(Drop)]
struct Meeter {
    clock: HostRuntime,
    begun: Arc<AtomicU32>,
}

impl Worker for Meeter {
    type Job = ();

    type Done = bool;

    ghost carries = { λ before job done after. Unit {0} };

    fn carry(&mut self, _job: ()) -> bool {
        self.begun.fetch_add(1, Ordering::SeqCst);
        for _turn in 0..20_000 {
            if self.begun.load(Ordering::SeqCst) == 2 {
                return true;
            }
            thread::sleep(&self.clock, Duration::from_millis(1));
        }
        false
    }
}

// Gives a job to each lane.
#[derive(Drop)]
struct OneEach {
    taken: Vec<(u32, bool)>,
}

impl Boss<Meeter> for OneEach {
    ghost may_direct = { λ boss lanes depth. 1 ≤ lanes };

    ghost directs = { λ before lanes after. Unit {0} };

    fn direct<R: Wait>(&mut self, rt: &R, desk: &mut Desk<Meeter>) {
        for lane in 0..desk.lanes() {
            let _ = desk.give(lane, ());
        }
        take_all(rt, desk, &mut self.taken);
    }
}

fn meeters(alloc: Global, clock: HostRuntime) -> Result<Vec<Meeter>, AllocError>
    ensures { IfOk result (λ workers. vec_len workers ≡ 2) }
{
    let begun = Arc::new(alloc, AtomicU32::new(0))?;
    let mut workers = Vec::new(alloc);
    for _made in 0..2u32 {
        let begun = Arc::try_clone(&begun)?;
        workers.push(Meeter { clock, begun })?;
    }
    Ok(workers)
}

fn outcomes_shown(alloc: Global, taken: &[(u32, bool)]) -> Result<String, AllocError> {
    let met = taken.iter().all(|(_, met)| *met);
    format!(in alloc; "{} met {met}", taken.len())
}

/// How many jobs came back, and whether each has met the other.
pub(crate) fn meet<R: Threads + Wait + Clone + Send + Drop + 'static>(
    rt: &R,
    alloc: Global,
    clock: HostRuntime,
) -> Result<String, AllocError> {
    let mut workers = meeters(alloc, clock)?;
    let mut boss = OneEach {
        taken: Vec::new(alloc),
    };
    let ran = with_workers(rt, alloc, &mut workers, 1, &mut boss);
    mem::drop(workers);
    match ran {
        Ok(()) => outcomes_shown(alloc, &boss.taken),
        Err(AllocError) => Err(AllocError),
    }
}
