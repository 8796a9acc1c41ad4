//! What a stage says of its act.

ghost use Rattle.std.specs.Prelude.{◌≡◌};
ghost use Rattle.task_acts.specs.Stages.{has_done, has_ended, is_out, may_be_given};

use task_acts::Stage;

/// Whether an act came back and did what it was to do.
pub fn has_done(stage: Stage) -> bool
    ensures { result ≡ has_done stage }
{
    matches!(stage, Stage::Fine)
}

/// Whether an act came back.
pub fn has_ended(stage: Stage) -> bool
    ensures { result ≡ has_ended stage }
{
    matches!(stage, Stage::Fine | Stage::Failed)
}

/// Whether an act was not given, or is given again.
pub fn may_be_given(stage: Stage) -> bool
    ensures { result ≡ may_be_given stage }
{
    matches!(stage, Stage::Waiting | Stage::Kept)
}

/// Whether an act was given and did not come back.
pub fn is_out(stage: Stage) -> bool
    ensures { result ≡ is_out stage }
{
    matches!(stage, Stage::Out | Stage::Again)
}
