//! What stopped a task.

ghost use Rattle.std.specs.Option.{option_or};
ghost use Rattle.std.specs.Prelude.{◌≡◌, ◌||◌, ◌&&◌, None, Some, Option, is_some, if◌then◌else◌};
ghost use Rattle.s3_model.specs.declared.outcomes.Cause.{Cause};
ghost use Rattle.task_acts.specs.Ends.{unless_memory};
ghost use Rattle.task_acts.specs.Failures.{is_memory};
ghost use Rattle.task_ends.specs.Causes.{
  failure_of,
  how_ended_by,
  is_stopped_by,
  no_causes,
  open_cause_by,
  stop_cause_by,
};

use crate::last_cause::LastCause;
use s3_model::{Cause, Outcome, Reason};
use std::marker::Model;
use std::mem;

/// The first failure of a task, the first cancel, and what the last attempt of its deciding request shows.
#[derive(Drop)]
pub struct Causes {
    failing: bool,
    first: Option<Cause>,
    last: LastCause,
    reason: Option<Reason>,
    memory: bool,
    uncertain: bool,
}

impl Model for Causes {
    ghost use Rattle.task_ends.specs.Causes.{IsKept, SeenCauses, last_by};

    ghost Value = { SeenCauses };

    ghost view = { λ c. record {
      failing = c.failing;
      first = c.first;
      last = last_by c.first c.last;
      reason = c.reason;
      memory = c.memory;
      uncertain = c.uncertain;
    } };

    ghost invariant = { λ c. IsKept c.failing c.first c.last };
}

fn is_memory(why: &Option<Cause>) -> bool
    ensures { result ≡ is_memory why.now }
{
    matches!(why, Some(Cause::Memory))
}

impl Causes {
    /// Nothing happened.
    pub fn none() -> Causes
        ensures { result ≡ no_causes }
    {
        Causes {
            failing: false,
            first: None,
            last: LastCause::Nothing,
            reason: None,
            memory: false,
            uncertain: false,
        }
    }

    /// Whether something failed.
    pub fn is_failing(&self) -> bool
        ensures { result ≡ self.now.failing }
    {
        self.failing
    }

    /// Whether a failure or a cancel came.
    pub fn is_stopped(&self) -> bool
        ensures { result ≡ is_stopped_by self.now }
    {
        self.failing || self.reason.is_some()
    }

    /// A call on files came back, and showed that.
    pub fn file_came(&mut self, why: Option<Cause>)
        ensures failing { self.new.failing ≡ (self.old.failing || is_some why) }
        ensures first { self.new.first ≡ (if self.old.failing then self.old.first else why) }
        ensures last { self.new.last ≡ self.old.last }
        ensures reason { self.new.reason ≡ self.old.reason }
        ensures memory { self.new.memory ≡ (self.old.memory || is_memory why) }
        ensures uncertain { self.new.uncertain ≡ self.old.uncertain }
    {
        self.memory = self.memory || is_memory(&why);
        if !self.failing {
            self.failing = why.is_some();
            self.first = why;
        }
    }

    /// The run was cancelled.
    pub fn cancel(&mut self, reason: Reason)
        ensures failing { self.new.failing ≡ self.old.failing }
        ensures first { self.new.first ≡ self.old.first }
        ensures last { self.new.last ≡ self.old.last }
        ensures reason { self.new.reason ≡ option_or self.old.reason (Some reason) }
        ensures memory { self.new.memory ≡ self.old.memory }
        ensures uncertain { self.new.uncertain ≡ self.old.uncertain }
    {
        if self.reason.is_none() {
            self.reason = Some(reason);
        }
    }

    /// A job came back, and showed that. It is told whether the job was cut short, whether it shows what the deciding
    /// request did last, and whether it left that open.
    pub fn came(&mut self, why: Option<Cause>, is_cut: bool, is_last: bool, is_open: bool)
        ensures failing { self.new.failing ≡ (self.old.failing || is_some (failure_of is_cut why)) }
        ensures first { self.new.first ≡ (if self.old.failing then self.old.first else failure_of is_cut why) }
        ensures last { self.new.last ≡ (if is_last then why else self.old.last) }
        ensures reason { self.new.reason ≡ self.old.reason }
        ensures memory { self.new.memory ≡ (self.old.memory || is_memory (failure_of is_cut why)) }
        ensures uncertain { self.new.uncertain ≡ (self.old.uncertain || is_open) }
    {
        self.uncertain = self.uncertain || is_open;
        if !is_cut {
            self.failed(why, is_last);
        } else if is_last {
            self.showed(why);
        }
    }

    /// The deciding request shows that last.
    fn showed(&mut self, why: Option<Cause>)
        ensures failing { self.new.failing ≡ self.old.failing }
        ensures first { self.new.first ≡ self.old.first }
        ensures last { self.new.last ≡ why }
        ensures reason { self.new.reason ≡ self.old.reason }
        ensures memory { self.new.memory ≡ self.old.memory }
        ensures uncertain { self.new.uncertain ≡ self.old.uncertain }
    {
        self.last = match why {
            Some(why) => LastCause::Own(why),
            None => LastCause::Nothing,
        };
    }

    /// A job that was not cut short shows that.
    fn failed(&mut self, why: Option<Cause>, is_last: bool)
        ensures failing { self.new.failing ≡ (self.old.failing || is_some why) }
        ensures first { self.new.first ≡ (if self.old.failing then self.old.first else why) }
        ensures last { self.new.last ≡ (if is_last then why else self.old.last) }
        ensures reason { self.new.reason ≡ self.old.reason }
        ensures memory { self.new.memory ≡ (self.old.memory || is_memory why) }
        ensures uncertain { self.new.uncertain ≡ self.old.uncertain }
    {
        if self.failing || why.is_none() {
            self.memory = self.memory || is_memory(&why);
            if is_last {
                self.showed(why);
            }
            return;
        }
        self.file_came(why);
        if is_last {
            self.last = LastCause::First;
        }
    }

    fn take_last(&mut self) -> Option<Cause>
        ensures result { result ≡ self.old.last }
        ensures failing { self.new.failing ≡ self.old.failing }
        ensures first { result ≡ None → self.new.first ≡ self.old.first }
        ensures last { self.new.last ≡ None }
        ensures reason { self.new.reason ≡ self.old.reason }
        ensures memory { self.new.memory ≡ self.old.memory }
        ensures uncertain { self.new.uncertain ≡ self.old.uncertain }
    {
        match mem::replace(&mut self.last, LastCause::Nothing) {
            LastCause::Nothing => None,
            LastCause::Own(why) => Some(why),
            LastCause::First => self.first.take(),
        }
    }

    /// Why nobody can know what happened.
    fn take_open_cause(&mut self) -> Option<Cause>
        ensures result { result ≡ open_cause_by self.old }
        ensures failing { self.new.failing ≡ self.old.failing }
        ensures first { result ≡ None → self.new.first ≡ self.old.first }
        ensures last { result ≡ None → self.new.last ≡ self.old.last }
        ensures reason { self.new.reason ≡ self.old.reason }
        ensures memory { self.new.memory ≡ self.old.memory }
        ensures uncertain { self.new.uncertain ≡ self.old.uncertain }
    {
        if self.memory {
            Some(Cause::Memory)
        } else {
            self.take_last()
        }
    }

    /// What stopped the task: the first failure, or where there is none the cancel.
    fn take_stop_cause(&mut self) -> Option<Cause>
        ensures result { result ≡ stop_cause_by self.old }
        ensures failing { self.new.failing ≡ self.old.failing }
        ensures first { result ≡ None → self.new.first ≡ self.old.first }
        ensures last { result ≡ None → self.new.last ≡ self.old.last }
        ensures reason { self.new.reason ≡ self.old.reason }
        ensures memory { self.new.memory ≡ self.old.memory }
        ensures uncertain { self.new.uncertain ≡ self.old.uncertain }
    {
        if self.memory {
            return Some(Cause::Memory);
        }
        match self.first.take() {
            Some(why) => Some(why),
            None => self.reason.map(|reason| Cause::Cancelled { reason }),
        }
    }

    /// How the task ends, by whether all its steps succeeded and what it is for has happened. The cause is taken.
    pub fn end(&mut self, is_whole: bool, is_decided: bool) -> Option<Outcome>
        ensures result { result ≡ how_ended_by is_whole is_decided self.old }
        ensures failing { self.new.failing ≡ self.old.failing }
        ensures first { result ≡ None → self.new.first ≡ self.old.first }
        ensures last { result ≡ None → self.new.last ≡ self.old.last }
        ensures reason { self.new.reason ≡ self.old.reason }
        ensures memory { self.new.memory ≡ self.old.memory }
        ensures uncertain { self.new.uncertain ≡ self.old.uncertain }
    {
        if is_whole {
            return Some(Outcome::Done);
        }
        if self.uncertain && !is_decided {
            let why = self.take_open_cause()?;
            return Some(Outcome::Unknown(why));
        }
        let why = self.take_stop_cause()?;
        Some(if is_decided {
            Outcome::Copied(why)
        } else {
            Outcome::Failed(why)
        })
    }
}
