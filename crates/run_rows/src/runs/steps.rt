//! The steps of a run, by what a script says.

ghost use Rattle.std.specs.Prelude.{◌≡◌, true, IfOk, OnOk};
ghost use Rattle.run_rows.specs.Runs.{IsAt, IsFree, Stands};

use crate::runs::conductor::{Conductor, call_in};
use crate::runs::lane::{Lane, first_in_use, oldest_in};
use crate::runs::shown::Shown;
use manager_moves::Move;
use run_scripts::Script;
use s3_model::{JobId, OutOfMemory, Reason};

/// The most moves of a run.
const MOST_MOVES: u64 = 100_000_000;

/// How far a run is.
#[derive(Clone, Copy)]
pub(crate) enum Step {
    GoesOn,
    Ended,
    /// What the script says can't come.
    Stuck,
}

fn call(run: &mut Conductor, script: &mut Script<'_>, next: Move) -> Result<Step, OutOfMemory>
    requires { IsAt next run.old.manager run.old.lanes.items }
    ensures { IfOk result (λ step. Stands step run.new.manager run.new.lanes.items) }
{
    let Some((task, act)) = call_in(next) else {
        return Ok(Step::Stuck);
    };
    let Some(came) = script.call(task, act)? else {
        return Ok(Step::Stuck);
    };
    if run.call(next, came) {
        Ok(Step::GoesOn)
    } else {
        Ok(Step::Stuck)
    }
}

/// The lane from which the next job comes back.
fn next_lane(lanes: &[Lane], script: &mut Script<'_>) -> Option<u32> {
    match script.lane() {
        Some(lane) => Some(lane),
        None => first_in_use(lanes),
    }
}

fn wait(run: &mut Conductor, script: &mut Script<'_>) -> Result<Step, OutOfMemory>
    requires { IsAt Move.Wait run.old.manager run.old.lanes.items }
    ensures { IfOk result (λ step. Stands step run.new.manager run.new.lanes.items) }
{
    let Some(lane) = next_lane(&run.lanes, script) else {
        return Ok(Step::Stuck);
    };
    let Some(
        JobId {
            task: Some(task),
            op,
            number,
        },
    ) = oldest_in(&run.lanes, lane)
    else {
        return Ok(Step::Stuck);
    };
    let came = script.job(task, op, number)?;
    match run.wait(lane, came.as_str()) {
        Ok(true) => Ok(Step::GoesOn),
        Ok(false) => Ok(Step::Stuck),
        Err(OutOfMemory) => Err(OutOfMemory),
    }
}

/// A line is printed with the outcome of its task.
fn line(run: &mut Conductor, shown: &mut Shown, task: u32) -> Result<(), OutOfMemory>
    requires { IsAt (Move.Line task) run.old.manager run.old.lanes.items }
    ensures { OnOk result (IsFree run.new.manager run.new.lanes.items) }
{
    if let Some(outcome) = run.outcome(task) {
        shown.outcome(outcome)?;
    }
    run.line(task);
    Ok(())
}

/// Does the next move.
fn answer(
    run: &mut Conductor,
    script: &mut Script<'_>,
    shown: &mut Shown,
    next: Move,
) -> Result<Step, OutOfMemory>
    requires { IsAt next run.old.manager run.old.lanes.items }
    ensures { IfOk result (λ step. Stands step run.new.manager run.new.lanes.items) }
{
    match next {
        Move::Make(task) => run.make_task(task),
        Move::Give {
            task,
            op,
            number,
            lane,
        } => run.give(task, op, number, lane)?,
        Move::Line(task) => line(run, shown, task)?,
        Move::Wait => return wait(run, script),
        Move::End => return Ok(Step::Ended),
        _ => return call(run, script, next),
    }
    Ok(Step::GoesOn)
}

/// Cancels the run, where the script says so after so many moves.
fn cancel(run: &mut Conductor, script: &mut Script<'_>, moves: u64) -> Result<(), OutOfMemory>
    requires { IsFree run.old.manager run.old.lanes.items }
    ensures { OnOk result (IsFree run.new.manager run.new.lanes.items) }
{
    match script.cancel(moves)? {
        None | Some(Reason::TaskFailed) => Ok(()),
        Some(reason) => {
            run.cancel(reason);
            Ok(())
        }
    }
}

fn advance(
    run: &mut Conductor,
    script: &mut Script<'_>,
    shown: &mut Shown,
) -> Result<Step, OutOfMemory>
    requires { IsFree run.old.manager run.old.lanes.items }
    ensures { IfOk result (λ step. Stands step run.new.manager run.new.lanes.items) }
{
    cancel(run, script, shown.moves)?;
    let next = run.next();
    shown.next(next)?;
    answer(run, script, shown, next)
}

/// Does the moves of a run. False where it does not come to its end.
pub(crate) fn steps(
    run: &mut Conductor,
    script: &mut Script<'_>,
    shown: &mut Shown,
) -> Result<bool, OutOfMemory>
    requires { IsFree run.old.manager run.old.lanes.items }
    ensures { IfOk result (λ ended. ended ≡ true → IsAt Move.End run.new.manager run.new.lanes.items) }
{
    for _ in 0..MOST_MOVES {
        match advance(run, script, shown)? {
            Step::GoesOn => {}
            Step::Ended => return Ok(true),
            Step::Stuck => return Ok(false),
        }
    }
    Ok(false)
}
