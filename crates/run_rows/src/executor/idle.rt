//! Who has nothing to do sleeps: while one job takes its time, the other workers and the desk use next to no processor.

ghost use Rattle.std.specs.Prelude.{◌≡◌, ◌≤◌, IfOk, vec_len};
ghost use Rattle.bounded_executor.specs.Desk.{SameDesk};

use crate::executor::carriers::take_all;
use bounded_executor::{Boss, Desk, Worker, with_workers};
use std::alloc::{AllocError, Global};
use std::mem;
use std::sync::Wait;
use std::thread::{self, Threads};
use std::time::{CpuClock, Duration};

// Sleeps through its job.
#[derive(Drop)]
struct Sleeper {
    clock: HostRuntime,
}

impl Worker for Sleeper {
    type Job = Duration;

    type Done = ();

    ghost carries = { λ before job done after. Unit {0} };

    fn carry(&mut self, time: Duration) {
        thread::sleep(&self.clock, time);
    }
}

// Gives one job, and takes the processor time of all threads until it is back.
#[derive(Drop)]
struct Watcher {
    clock: HostRuntime,
    taken: Vec<(u32, ())>,
    used: Option<Duration>,
}

impl Boss<Sleeper> for Watcher {
    ghost may_direct = { λ boss lanes depth. 1 ≤ lanes };

    ghost directs = { λ before lanes after. Unit {0} };

    fn direct<R: Wait>(&mut self, rt: &R, desk: &mut Desk<Sleeper>) {
        let before = self.clock.process_cpu_time();
        let _ = desk.give(0, Duration::from_millis(500));
        take_all(rt, desk, &mut self.taken);
        let after = self.clock.process_cpu_time();
        if let (Ok(before), Ok(after)) = (before, after) {
            self.used = after.checked_sub(before);
        }
    }
}

fn sleepers(alloc: Global, clock: HostRuntime) -> Result<Vec<Sleeper>, AllocError>
    ensures { IfOk result (λ workers. vec_len workers ≡ 8) }
{
    let mut workers = Vec::new(alloc);
    for _made in 0..8u32 {
        workers.push(Sleeper { clock })?;
    }
    Ok(workers)
}

/// Whether the processor was used for less than a tenth of a second.
fn is_little(used: Option<Duration>) -> bool {
    match used {
        Some(used) => used < Duration::from_millis(100),
        None => false,
    }
}

fn watcher_shown(alloc: Global, boss: &Watcher) -> Result<String, AllocError> {
    format!(in alloc; "{} asleep {}", boss.taken.len(), is_little(boss.used))
}

/// How many outcomes came of a job that takes half a second, and whether all others were asleep meanwhile.
pub(crate) fn waits_asleep<R: Threads + Wait + Clone + Send + Drop + 'static>(
    rt: &R,
    alloc: Global,
    clock: HostRuntime,
) -> Result<String, AllocError> {
    let mut workers = sleepers(alloc, clock)?;
    let mut boss = Watcher {
        clock,
        taken: Vec::new(alloc),
        used: None,
    };
    let ran = with_workers(rt, alloc, &mut workers, 1, &mut boss);
    mem::drop(workers);
    match ran {
        Ok(()) => watcher_shown(alloc, &boss),
        Err(AllocError) => Err(AllocError),
    }
}
