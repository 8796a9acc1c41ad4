//! The line of a run is printed, and its status follows.

ghost use Rattle.std.specs.Prelude.{◌≡◌, ◌≢◌, ◌≤◌, ◌⊎◌, Some, OnErr, OnOk};
ghost use Rattle.s3_model.specs.Counts.{Rose};
ghost use Rattle.result_lines.specs.Faults.{memory_line};
ghost use Rattle.run_report.specs.Printed.{IsPrintedAs, Says, SaysMemory, SaysSoFar, output_of};
ghost use Rattle.run_report.specs.Statuses.{EndsWith, answer_status, fatal_status, run_status};
ghost use Rattle.run_report.specs.Texts.{MatchesFatal, err_of, fatal_after, out_of};

use crate::output::write_text;
use crate::printout::Printout;
use crate::run::{Fatal, Run};
use crate::worked::{Executed, Worked};
use result_lines::{memory_line, status_of};
use s3_model::Cause;
use s3_outside::{Failed, Sink};
use std::mem;

/// The status of a listing that was refused, or of which nobody can know.
fn answer_status(cause: &Cause) -> u8
    ensures { result ≡ answer_status cause.now }
{
    match cause {
        Cause::Service { .. } => 254,
        _ => 255,
    }
}

fn fatal_status(lists: bool, fatal: &Fatal) -> u8
    ensures status { result ≡ fatal_status lists fatal.now }
    ensures memory { result ≡ 70 → fatal.now ≡ Fatal.Memory }
{
    match fatal {
        Fatal::Words(_) | Fatal::NotYet => 252,
        Fatal::Profile(_) | Fatal::EnvRead => 253,
        Fatal::Memory => 70,
        Fatal::Listing(_) if lists => 255,
        Fatal::Answer(cause) if lists => answer_status(cause),
        _ => 1,
    }
}

fn status_by(lists: bool, missed: bool, run: &Run) -> u8
    ensures status { result ≡ run_status lists missed run.now }
    ensures memory { result ≡ 70 → run.now.fatal ≡ Some Fatal.Memory }
{
    match &run.fatal {
        Some(fatal) => fatal_status(lists, fatal),
        None if missed => 1,
        None => status_of(&run.outcomes, run.warnings.len() as u64),
    }
}

/// Writes a text as far as the output takes it.
fn say<S: Sink>(sink: &mut S, text: &str) -> Result<(), Failed>
    ensures whole { OnOk result (Says (output_of (S.seen sink.old) (S.seen sink.new) (S.faults sink.old)
        (S.faults sink.new)) text.now) }
    ensures so_far { SaysSoFar (output_of (S.seen sink.old) (S.seen sink.new) (S.faults sink.old)
        (S.faults sink.new)) text.now }
    ensures failed { OnErr result (Rose (S.faults sink.old) (S.faults sink.new)) }
    ensures later { S.faults sink.old ≤ S.faults sink.new }
{
    write_text(sink, text)
}

/// Writes what is due on both outputs; where one of them fails the other has its text all the same.
fn say_both<O: Sink, X: Sink>(said: &Printout, out: &mut O, err: &mut X) -> Result<(), Failed>
    ensures whole { OnOk result (Says (output_of (O.seen out.old) (O.seen out.new) (O.faults out.old)
        (O.faults out.new)) said.now.out × Says (output_of (X.seen err.old) (X.seen err.new) (X.faults err.old)
        (X.faults err.new)) said.now.err) }
    ensures out { SaysSoFar (output_of (O.seen out.old) (O.seen out.new) (O.faults out.old) (O.faults out.new))
        said.now.out }
    ensures err { SaysSoFar (output_of (X.seen err.old) (X.seen err.new) (X.faults err.old) (X.faults err.new))
        said.now.err }
    ensures failed { OnErr result (Rose (O.faults out.old) (O.faults out.new) ⊎
        Rose (X.faults err.old) (X.faults err.new)) }
    ensures out_later { O.faults out.old ≤ O.faults out.new }
    ensures err_later { X.faults err.old ≤ X.faults err.new }
{
    let to_err = say(err, said.err.as_str());
    let to_out = say(out, said.out.as_str());
    match to_err {
        Ok(()) => to_out,
        Err(failed) => Err(failed),
    }
}

/// Prints the text of a run, and gives the run its status.
fn report_text<O: Sink, X: Sink>(
    lists: bool,
    missed: bool,
    mut run: Run,
    said: Printout,
    out: &mut O,
    err: &mut X,
) -> Run
    requires { run.fatal ≢ Some Fatal.Memory }
    ensures plan { result.plan ≡ run.plan }
    ensures outcomes { result.outcomes ≡ run.outcomes }
    ensures journal { result.journal ≡ run.journal }
    ensures warnings { result.warnings ≡ run.warnings }
    ensures fatal { result.fatal ≡ run.fatal }
    ensures status { EndsWith lists missed result (Rose (O.faults out.old) (O.faults out.new) ⊎
        Rose (X.faults err.old) (X.faults err.new)) }
    ensures out_later { O.faults out.old ≤ O.faults out.new }
    ensures err_later { X.faults err.old ≤ X.faults err.new }
    ensures printed { IsPrintedAs result.status said.out said.err
        (output_of (O.seen out.old) (O.seen out.new) (O.faults out.old) (O.faults out.new))
        (output_of (X.seen err.old) (X.seen err.new) (X.faults err.old) (X.faults err.new)) }
{
    let printed = say_both(&said, out, err);
    mem::drop(said);
    run.status = if printed.is_ok() {
        status_by(lists, missed, &run)
    } else {
        74
    };
    run
}

/// Prints that memory ran out for the text of a run, and ends the run so.
fn report_memory<X: Sink>(run: Run, err: &mut X) -> Run
    ensures plan { result.plan ≡ run.plan }
    ensures outcomes { result.outcomes ≡ run.outcomes }
    ensures journal { result.journal ≡ run.journal }
    ensures warnings { result.warnings ≡ run.warnings }
    ensures fatal { result.fatal ≡ Some Fatal.Memory }
    ensures status { result.status ≡ 70 }
    ensures err_later { X.faults err.old ≤ X.faults err.new }
    ensures printed { SaysSoFar (output_of (X.seen err.old) (X.seen err.new) (X.faults err.old) (X.faults err.new))
        memory_line }
{
    let _ = say(err, memory_line());
    let Run {
        plan,
        outcomes,
        journal,
        warnings,
        fatal,
        ..
    } = run;
    mem::drop(fatal);
    Run {
        status: 70,
        plan,
        outcomes,
        journal,
        warnings,
        fatal: Some(Fatal::Memory),
    }
}

/// Prints the text of a run, and gives it its status.
pub fn report<O: Sink, X: Sink>(worked: Worked, out: &mut O, err: &mut X) -> Run
    requires { MatchesFatal worked.executed.run.fatal worked.executed.text }
    ensures plan { result.plan ≡ worked.executed.run.plan }
    ensures outcomes { result.outcomes ≡ worked.executed.run.outcomes }
    ensures journal { result.journal ≡ worked.executed.run.journal }
    ensures warnings { result.warnings ≡ worked.executed.run.warnings }
    ensures fatal { result.fatal ≡ fatal_after worked.executed.text worked.executed.run.fatal }
    ensures status { EndsWith worked.lists worked.missed result (Rose (O.faults out.old) (O.faults out.new) ⊎
        Rose (X.faults err.old) (X.faults err.new)) }
    ensures out_later { O.faults out.old ≤ O.faults out.new }
    ensures err_later { X.faults err.old ≤ X.faults err.new }
    ensures memory { OnErr worked.executed.text (result.status ≡ 70) }
    ensures printed { IsPrintedAs result.status (out_of worked.executed.text) (err_of worked.executed.text)
        (output_of (O.seen out.old) (O.seen out.new) (O.faults out.old) (O.faults out.new))
        (output_of (X.seen err.old) (X.seen err.new) (X.faults err.old) (X.faults err.new)) }
{
    let Worked {
        executed,
        lists,
        missed,
    } = worked;
    let Executed { run, text } = executed;
    match text {
        Ok(said) => report_text(lists, missed, run, said, out, err),
        Err(_) => report_memory(run, err),
    }
}
