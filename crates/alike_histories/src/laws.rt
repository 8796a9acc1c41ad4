//! The law, a function that does nothing.

ghost use Rattle.alike_histories.specs.Alike.{AlikeSaysTheSame, CancelStaysAlike, GivingStaysAlike, StartsAlike};
ghost use Rattle.alike_histories.specs.Alike.{StaysAlike, TakingStaysAlike};

/// Where the same happened to a task but for the kept jobs that were taken and for cancels behind the first, the same is
/// ready and the same came of it. So a task that has stopped may give up the jobs that it kept, and need not hear of a
/// second cancel.
pub fn alike_histories_say_the_same()
    ensures says { AlikeSaysTheSame }
    ensures starts { StartsAlike }
    ensures stays { StaysAlike }
    ensures giving { GivingStaysAlike }
    ensures taking { TakingStaysAlike }
    ensures cancel { CancelStaysAlike }
{}
