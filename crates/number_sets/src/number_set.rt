//! Sets of numbers below a bound.

ghost use Rattle.std.specs.Prelude.{◌≡◌, ◌<◌, ◌≤◌, false, true, length, replicate, set, IfOk};
ghost use Rattle.std.specs.List.{position};
ghost use Rattle.number_sets.specs.Members.{is_set};

use crate::bits::{first_used, least_in, put};
use std::alloc::{AllocError, Global};
use std::marker::Model;

/// A set of numbers below a bound. Whatever its members are, its least one is found by a look at two words and at one
/// more for each 4,096 numbers below the bound.
///
/// Contracts see for each number whether it is a member.
#[derive(Drop)]
pub struct NumberSet {
    count: u32,
    words: Vec<u64>,
    /// For each word whether it has a member.
    summary: Vec<u64>,
}

impl Model for NumberSet {
    ghost use Rattle.std.specs.Prelude.{Bool, List};
    ghost use Rattle.number_sets.specs.Members.{IsSummed, flags};

    ghost Value = { List Bool };

    ghost view = { λ s. flags s.words.items s.count };

    ghost invariant = { λ s. IsSummed s.count s.words.items s.summary.items };
}

impl NumberSet {
    /// The empty set of numbers below `count`. It takes all the memory of the set.
    pub fn make(alloc: Global, count: u32) -> Result<NumberSet, AllocError>
        ensures { IfOk result (λ set. set ≡ replicate count false) }
    {
        let length = count as usize / 64 + 1;
        let words = vec![in alloc; 0; length]?;
        let summary = vec![in alloc; 0; length / 64 + 1]?;
        Ok(NumberSet {
            count,
            words,
            summary,
        })
    }

    /// The set of all numbers below `count`. It takes all the memory of the set.
    pub fn all(alloc: Global, count: u32) -> Result<NumberSet, AllocError>
        ensures { IfOk result (λ set. set ≡ replicate count true) }
    {
        let mut set = NumberSet::make(alloc, count)?;
        for number in 0..count {
            set.put(number, true);
        }
        Ok(set)
    }

    /// Makes a number a member, or takes it out.
    pub fn put(&mut self, number: u32, is_member: bool)
        requires { number < length self.old }
        ensures { self.new ≡ set self.old number is_member }
    {
        let number = number as usize;
        let is_used = put(&mut self.words, number, is_member);
        let _any = put(&mut self.summary, number / 64, is_used);
    }

    /// The least member, or None where there is none.
    pub fn first(&self) -> Option<u32>
        ensures { result ≡ position is_set self.now }
    {
        let top = first_used(&self.summary)?;
        let word = least_in(&self.summary, top);
        Some(least_in(&self.words, word) as u32)
    }
}
