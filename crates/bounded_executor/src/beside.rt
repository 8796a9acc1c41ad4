//! Both ends of a ring in one thread.

ghost use Rattle.std.specs.Prelude.{◌≡◌, ◌<◌, ◌≤◌, ◌++◌, ◌∷◌, [], length};
ghost use Rattle.std.specs.VecDeque.{deque_capacity};
ghost use Rattle.rtrb.specs.Ring.{sent, received, producer_capacity, IsPair, SameProducer, SameConsumer};
ghost use Rattle.bounded_executor.specs.Outbox.{jobs_given};

use crate::outbox::Outbox;
use rtrb::{Consumer, Producer};

// The oldest job that was given and not popped.
pub(crate) fn pop_beside<J: Drop>(outbox: &mut Outbox<J>, jobs: &mut Consumer<J>) -> J
    requires pair { IsPair outbox.old.ring jobs.old }
    requires room { 0 < producer_capacity outbox.old.ring }
    requires due { length (received jobs.old) < length (jobs_given outbox.old) }
    ensures outbox_ring { SameProducer outbox.old.ring outbox.new.ring }
    ensures order { jobs_given outbox.new ≡ jobs_given outbox.old }
    ensures capacity { deque_capacity outbox.new.waiting ≡ deque_capacity outbox.old.waiting }
    ensures ring { SameConsumer jobs.old jobs.new }
    ensures popped { received jobs.new ≡ received jobs.old ++ result ∷ [] }
    ensures behind { length (received jobs.new) ≤ length (sent outbox.new.ring) }
{
    outbox.ring.slots_beside(jobs);
    outbox.flush();
    jobs.slots_beside(&mut outbox.ring);
    jobs.pop_known()
}

// Sends an outcome through a ring that is empty.
pub(crate) fn pass_through<D: Drop>(to: &mut Producer<D>, from: &mut Consumer<D>, outcome: D) -> D
    requires pair { IsPair to.old from.old }
    requires room { 0 < producer_capacity to.old }
    requires empty { sent to.old ≡ received from.old }
    ensures to_ring { SameProducer to.old to.new }
    ensures from_ring { SameConsumer from.old from.new }
    ensures sent { sent to.new ≡ sent to.old ++ outcome ∷ [] }
    ensures received { received from.new ≡ received from.old ++ outcome ∷ [] }
    ensures same { result ≡ outcome }
{
    to.slots_beside(from);
    to.push_reserved(outcome);
    from.slots_beside(to);
    from.pop_known()
}
