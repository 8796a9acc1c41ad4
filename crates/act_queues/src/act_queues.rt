//! The acts that are ready, by what they need.

ghost use Rattle.std.specs.Prelude.{◌≡◌, ◌<◌, ◌^◌, false, None, IfOk, length, replicate, set};
ghost use Rattle.std.specs.List.{position};
ghost use Rattle.std.specs.Option.{option_or};
ghost use Rattle.act_queues.specs.Sorts.{is_call, is_get, is_job, is_read, lesser, may_call, may_give};

use number_sets::NumberSet;
use std::alloc::{AllocError, Global};
use std::marker::Model;

/// What an act that is ready needs.
#[derive(Clone, Copy)]
pub enum ActSort {
    /// A call on files that needs no part.
    Call,
    /// A call on files that needs a free part.
    Read,
    /// A job that needs no free part.
    Job,
    /// A job that needs a free part.
    Get,
}

/// For each task what the act that it is ready for needs, None where it is ready for none. No call but `make` takes
/// memory, and none goes over the tasks.
///
/// Contracts see the list of the tasks.
#[derive(Drop)]
pub struct ActQueues {
    sorts: Vec<Option<ActSort>>,
    calls: NumberSet,
    reads: NumberSet,
    jobs: NumberSet,
    gets: NumberSet,
}

impl Model for ActQueues {
    ghost use Rattle.std.specs.Prelude.{◌≡◌, ◌<◌, ◌^◌, List, Option, length, map};
    ghost use Rattle.act_queues.specs.declared.act_queues.ActSort.{ActSort};
    ghost use Rattle.act_queues.specs.Sorts.{is_call, is_get, is_job, is_read};

    ghost Value = { List (Option ActSort) };

    ghost view = { λ q. q.sorts.items };

    ghost invariant = { λ q. (q.calls ≡ map is_call q.sorts.items) × (q.reads ≡ map is_read q.sorts.items)
        × (q.jobs ≡ map is_job q.sorts.items) × (q.gets ≡ map is_get q.sorts.items) };
}

fn is_call(sort: Option<ActSort>) -> bool
    ensures { result ≡ is_call sort }
{
    matches!(sort, Some(ActSort::Call))
}

fn is_read(sort: Option<ActSort>) -> bool
    ensures { result ≡ is_read sort }
{
    matches!(sort, Some(ActSort::Read))
}

fn is_job(sort: Option<ActSort>) -> bool
    ensures { result ≡ is_job sort }
{
    matches!(sort, Some(ActSort::Job))
}

fn is_get(sort: Option<ActSort>) -> bool
    ensures { result ≡ is_get sort }
{
    matches!(sort, Some(ActSort::Get))
}

/// Two sets of so many numbers, which are empty.
fn two_sets(alloc: Global, count: u32) -> Result<(NumberSet, NumberSet), AllocError>
    ensures first { IfOk result (λ sets. sets.0 ≡ replicate count false) }
    ensures second { IfOk result (λ sets. sets.1 ≡ replicate count false) }
{
    let first = NumberSet::make(alloc, count)?;
    let second = NumberSet::make(alloc, count)?;
    Ok((first, second))
}

/// The lesser of two numbers, as far as they are there.
fn least(a: Option<u32>, b: Option<u32>) -> Option<u32>
    ensures { result ≡ lesser a b }
{
    match (a, b) {
        (Some(a), Some(b)) => Some(a.min(b)),
        (Some(a), None) => Some(a),
        (None, b) => b,
    }
}

impl ActQueues {
    /// So many tasks, none of which is ready. It takes all the memory.
    pub fn make(alloc: Global, count: u32) -> Result<ActQueues, AllocError>
        ensures { IfOk result (λ made. made ≡ replicate count None) }
    {
        let sorts = vec![in alloc; None; count as usize]?;
        let (calls, reads) = two_sets(alloc, count)?;
        let (jobs, gets) = two_sets(alloc, count)?;
        Ok(ActQueues {
            sorts,
            calls,
            reads,
            jobs,
            gets,
        })
    }

    /// A task is ready for an act of this sort, or for none.
    pub fn put(&mut self, task: u32, sort: Option<ActSort>)
        requires { task < length self.old }
        ensures { self.new ≡ set self.old task sort }
    {
        self.sorts[task as usize] = sort;
        self.calls.put(task, is_call(sort));
        self.reads.put(task, is_read(sort));
        self.jobs.put(task, is_job(sort));
        self.gets.put(task, is_get(sort));
    }

    /// The least task whose call on files can be made, where a part is free or none is.
    pub fn first_call(&self, has_part: bool) -> Option<u32>
        ensures { result ≡ position (may_call has_part) self.now }
    {
        let call = self.calls.first();
        if has_part {
            least(call, self.reads.first())
        } else {
            call
        }
    }

    /// The least task whose job can be given, where a lane has room or none has, and a part is free or none is.
    pub fn first_giving(&self, has_room: bool, has_part: bool) -> Option<u32>
        ensures { result ≡ position (may_give has_room has_part) self.now }
    {
        if !has_room {
            return None;
        }
        let job = self.jobs.first();
        if has_part {
            least(job, self.gets.first())
        } else {
            job
        }
    }
}
