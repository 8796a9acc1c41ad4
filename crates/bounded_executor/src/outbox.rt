//! The end of a ring at which jobs are given.

use rtrb::Producer;
use std::collections::VecDeque;

// The desk's end of a ring of jobs, with the jobs that the ring has not taken yet.
#[derive(Drop)]
pub(crate) struct Outbox<J> {
    pub(crate) ring: Producer<J>,
    pub(crate) waiting: VecDeque<J>,
}

impl<J: Drop> Outbox<J> {
    ghost use Rattle.std.specs.Prelude.{◌≡◌, ◌<◌, ◌≤◌, ◌++◌, ◌∷◌, [], length};
    ghost use Rattle.std.specs.VecDeque.{deque_capacity};
    ghost use Rattle.rtrb.specs.Ring.{sent, known_free, SameProducer};
    ghost use Rattle.bounded_executor.specs.Outbox.{jobs_given, known_limit};

    // Moves jobs that wait into the ring, while it has room.
    pub(crate) fn flush(&mut self)
        ensures ring { SameProducer self.old.ring self.new.ring }
        ensures order { jobs_given self.new ≡ jobs_given self.old }
        ensures capacity { deque_capacity self.new.waiting ≡ deque_capacity self.old.waiting }
        ensures more { length (sent self.old.ring) ≤ length (sent self.new.ring) }
        ensures fewer { length self.new.waiting.items ≤ length self.old.waiting.items }
        ensures limit { known_limit self.old ≤ known_limit self.new }
        ensures stops_when_full { 0 < length self.new.waiting.items → known_free self.new.ring ≡ 0 }
    {
        while !self.waiting.is_empty() && !self.ring.is_full() {
            let Some(job) = self.waiting.pop_front() else {
                return;
            };
            self.ring.push_reserved(job);
        }
    }

    // Puts a job behind the others.
    pub(crate) fn add(&mut self, job: J)
        requires { length self.old.waiting.items < deque_capacity self.old.waiting }
        ensures ring { SameProducer self.old.ring self.new.ring }
        ensures order { jobs_given self.new ≡ jobs_given self.old ++ job ∷ [] }
        ensures capacity { deque_capacity self.new.waiting ≡ deque_capacity self.old.waiting }
        ensures more { length (sent self.old.ring) ≤ length (sent self.new.ring) }
    {
        self.flush();
        if self.waiting.is_empty() && !self.ring.is_full() {
            self.ring.push_reserved(job);
        } else {
            self.waiting.push_back_reserved(job);
        }
    }
}
