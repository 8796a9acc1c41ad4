//! Which attempts of a request follow each other.

ghost use Rattle.std.specs.Prelude.{◌≡◌, ◌<◌, ◌≤◌, [], ◌∷◌, ◌++◌, length};

use std::marker::Model;

/// What one attempt of a request came to.
#[derive(Clone, Copy, Debug)]
pub enum Mark {
    Success,
    Refusal,
    Uncertain,
}

/// The marks of at most ten attempts, kept in place. Contracts see their list.
#[derive(Drop)]
pub struct Tries {
    marks: [Mark; 10],
    count: usize,
}

impl Model for Tries {
    ghost use Rattle.std.specs.Prelude.{List, take, ◌≤◌};
    ghost use Rattle.s3_model.specs.declared.tries.Mark.{Mark};

    ghost Value = { List Mark };

    ghost view = { λ t. take t.count t.marks };

    ghost invariant = { λ t. t.count ≤ 10 };
}

impl Tries {
    pub fn none() -> Tries
        ensures { result ≡ [] }
    {
        Tries {
            marks: [Mark::Success; 10],
            count: 0,
        }
    }

    /// Adds the mark of one more attempt.
    pub fn add(&mut self, mark: Mark)
        requires { length self.old < 10 }
        ensures { self.new ≡ self.old ++ mark ∷ [] }
    {
        self.marks[self.count] = mark;
        self.count += 1;
    }

    /// The marks in order, ten at most.
    pub fn as_slice(&self) -> &[Mark]
        ensures value { result.now ≡ self.now }
        ensures few { length result.now ≤ 10 }
    {
        &self.marks[..self.count]
    }
}
