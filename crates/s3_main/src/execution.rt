//! What the words say is planned and done; nothing is printed here.

ghost use Rattle.std.specs.Prelude.{◌≡◌, ◌≤◌, [], true, false, IfErr, IfOk, IfSome, drop, map, string_bytes};
ghost use Rattle.std.specs.Prelude.{vec_len};
ghost use Rattle.s3_model.specs.Validity.{IsValidLimits, IsWithin};
ghost use Rattle.upload_plans.specs.Commands.{CopiesUp, IsOffline, source_path};
ghost use Rattle.upload_plans.specs.Plans.{HasNoMemory};
ghost use Rattle.job_terms.specs.Gains.{Gains};
ghost use Rattle.upload_promise.specs.Sources.{LooksAt};
ghost use Rattle.s3_main.specs.Asked.{lists_in};
ghost use Rattle.s3_main.specs.DryRuns.{LooksFor};
ghost use Rattle.dry_runs.specs.Found.{files_seen};
ghost use Rattle.dry_runs.specs.Runs.{GoesDry};
ghost use Rattle.tree_walk.specs.Trees.{OnlyLooks};
ghost use Rattle.s3_main.specs.Executed.{
  DoesOn,
  EndsAs,
  GoesOn,
  HasNoUpload,
  HasStatusOf,
  HasTextOf,
  IsUnseen,
  OrMemory,
};
ghost use Rattle.s3_main.specs.Plans.{IsFate};
ghost use Rattle.s3_main.specs.Runs.{GoesAs, StopsFor, StopsPlanning, Undertakes};
ghost use Rattle.s3_main.specs.Wires.{OnEach, OnFirst};
ghost use Rattle.run_start.specs.Settings.{AsksOnly};
ghost use Rattle.run_report.specs.Texts.{IsTextOf, mode_in};

use dry_runs::execute_dry;
use run_report::{Executed, Fatal, Worked, end_early, end_left_out, end_not_a_file, end_skipped};
use run_show::{execute_listing, execute_presign};
use run_start::{Start, read_start, service_of};
use run_task::execute_upload;
use s3_model::{Limits, Mode, OutOfMemory, Settings, WalkFault};
use s3_outside::{Env, Files, Wire};
use s3_words::Command;
use std::alloc::Global;
use std::mem;
use std::sync::Wait;
use std::thread::Threads;
use upload_plans::{Fate, is_offline_dry_run, places_of, plan_upload};

/// Looks at the file of a command, and says what copying it comes to, which takes over the command's texts.
fn find_fate<F: Files>(
    alloc: Global,
    command: &mut Command,
    settings: &Settings,
    limits: &Limits,
    files: &mut F,
) -> Result<Fate, Fatal>
    requires { CopiesUp command.old }
    ensures fate { IfOk result (IsFate command.old settings.now limits.now (F.seen files.old)) }
    ensures memory { IfOk result HasNoMemory }
    ensures fault { IfErr result (IsUnseen (F.faults files.old) (F.faults files.new)) }
    ensures endpoint { command.new.endpoint ≡ command.old.endpoint }
    ensures files { LooksAt (source_path command.old) (F.seen files.old) (F.seen files.new) }
    ensures later { F.faults files.old ≤ F.faults files.new }
{
    let Ok(shape) = files.kind(places_of(command).path) else {
        return Err(Fatal::Walk(WalkFault::Files));
    };
    let threshold = settings.config.threshold;
    match plan_upload(alloc, command, shape, threshold, limits.max_object) {
        Ok(fate) => Ok(fate),
        Err(_) => Err(Fatal::Memory),
    }
}

fn or_memory(alloc: Global, words: &[String], ended: Result<Executed, OutOfMemory>) -> Executed
    ensures ended { OrMemory ended result }
    ensures text { IfErr ended (λ _. IsTextOf (map string_bytes words.now) [] result.run result.text) }
{
    match ended {
        Ok(ended) => ended,
        Err(_) => end_early(alloc, words, Fatal::Memory),
    }
}

/// Ends a run whose file is not copied.
fn end_with(alloc: Global, words: &[String], mode: Mode, fate: Fate) -> Executed
    requires no_task { HasNoUpload fate }
    requires memory { HasNoMemory fate }
    requires mode { mode ≡ mode_in (map string_bytes words.now) }
    ensures no_task { HasNoUpload fate }
    ensures ended { EndsAs fate result.run }
    ensures text { IsTextOf (map string_bytes words.now) [] result.run result.text }
{
    match fate {
        Fate::NotYet => end_early(alloc, words, Fatal::NotYet),
        Fate::Refused(fault) => end_early(alloc, words, Fatal::Plan(fault)),
        Fate::LeftOut => end_left_out(alloc, words, mode),
        Fate::NotAFile(path) => or_memory(alloc, words, end_not_a_file(alloc, words, mode, path)),
        Fate::Skipped { place, why } => {
            or_memory(alloc, words, end_skipped(alloc, words, mode, place, why))
        }
        Fate::Upload(_) => unreachable!(),
    }
}

/// Does what a command asks for.
fn execute_command<W: Wire, F: Files>(
    alloc: Global,
    words: &[String],
    mut start: Start,
    limits: &Limits,
    files: &mut F,
    wire: &mut W,
) -> Executed
    requires copies { CopiesUp start.command }
    requires mode { start.command.mode ≡ mode_in (map string_bytes words.now) }
    requires attempts { IsWithin 1 start.settings.config.attempts 10 }
    ensures went { Gains (W.seen wire.old) (W.seen wire.new) (GoesOn start.command start.settings limits.now
        (F.seen files.old) (F.seen files.new) (F.faults files.old) (F.faults files.new) result.run) }
    ensures text { IsTextOf (map string_bytes words.now) [] result.run result.text }
    ensures stops { IfSome result.run.fatal (StopsPlanning start.command start.settings limits.now (F.seen files.old)
        (F.faults files.old) (F.faults files.new)) }
    ensures does { DoesOn start.command start.settings limits.now (F.faults files.old) (F.faults files.new)
        result.run }
    ensures files { LooksAt (source_path start.command) (F.seen files.old) (F.seen files.new) }
    ensures files_later { F.faults files.old ≤ F.faults files.new }
    ensures wire_later { W.faults wire.old ≤ W.faults wire.new }
{
    let mode = start.command.mode;
    match find_fate(alloc, &mut start.command, &start.settings, limits, files) {
        Ok(Fate::Upload(task)) => {
            execute_upload(alloc, words, mode, service_of(start), task, files, wire)
        }
        Ok(fate) => {
            mem::drop(start);
            end_with(alloc, words, mode, fate)
        }
        Err(fatal) => {
            mem::drop(start);
            end_early(alloc, words, fatal)
        }
    }
}

/// Shows what a dry run would do.
fn execute_dry_run<F: Files>(
    alloc: Global,
    words: &[String],
    start: Start,
    limits: Limits,
    files: &mut F,
) -> Executed
    requires offline { IsOffline start.command }
    requires mode { start.command.mode ≡ mode_in (map string_bytes words.now) }
    ensures went { GoesDry start.command limits (files_seen (F.seen files.old) (F.seen files.new) (F.faults files.old)
        (F.faults files.new)) result.run }
    ensures text { IsTextOf (map string_bytes words.now) [] result.run result.text }
    ensures kept { OnlyLooks (F.seen files.old) (F.seen files.new) (F.faults files.old) (F.faults files.new) }
    ensures later { F.faults files.old ≤ F.faults files.new }
{
    let Start { command, settings } = start;
    mem::drop(settings);
    execute_dry(alloc, words, command, limits, files)
}

/// Plans and does what the words say; nothing is printed. No wire behind the first is used.
pub(crate) fn execute<R, W, F, E>(
    rt: &R,
    alloc: Global,
    words: &[String],
    env: &mut E,
    files: &mut F,
    wires: &mut Vec<W>,
) -> Worked
where
    R: Threads + Wait + Clone + Send + Drop + 'static,
    W: Wire + Send + Drop + 'static,
    F: Files,
    E: Env,
    requires wire { 1 ≤ vec_len wires.old }
    ensures went { OnFirst wires.old.items wires.new.items (λ before after. Gains (W.seen before) (W.seen after)
        (GoesAs (map string_bytes words.now) (E.seen env.new) (E.allows env.old) (F.seen files.old) (F.seen files.new)
        (F.faults files.old) (F.faults files.new) result.executed.run)) }
    ensures text { OnFirst wires.old.items wires.new.items (λ before after. HasTextOf (map string_bytes words.now)
        (E.seen env.new) (W.seen before) (W.seen after) result.executed.run result.executed.text result.missed) }
    ensures others { drop 1 wires.new.items ≡ drop 1 wires.old.items }
    ensures lists { HasStatusOf (lists_in (map string_bytes words.now)) result.lists result.executed.run.fatal }
    ensures stops { IfSome result.executed.run.fatal (StopsFor (map string_bytes words.now) (E.seen env.new)
        (E.faults env.old) (E.faults env.new) (E.allows env.old) (files_seen (F.seen files.old) (F.seen files.new)
        (F.faults files.old) (F.faults files.new))) }
    ensures does { Undertakes (map string_bytes words.now) (E.allows env.old) (F.faults files.old) (F.faults files.new)
        result.executed.run }
    ensures valid { IsValidLimits (E.allows env.old) }
    ensures files { LooksFor (map string_bytes words.now) (files_seen (F.seen files.old) (F.seen files.new)
        (F.faults files.old) (F.faults files.new)) }
    ensures files_later { F.faults files.old ≤ F.faults files.new }
    ensures wires_later { OnEach wires.old.items wires.new.items (λ before after. W.faults before ≤ W.faults after) }
    ensures asked { AsksOnly (E.seen env.old) (E.seen env.new) (E.faults env.old) (E.faults env.new) }
    ensures env_later { E.faults env.old ≤ E.faults env.new }
{
    let limits = env.limits();
    match read_start(alloc, words, env) {
        Ok(start) if start.command.verb.is_presign() => Worked {
            executed: execute_presign(alloc, words, start, &mut wires[0]),
            lists: false,
            missed: false,
        },
        Ok(start) if start.command.verb.is_listing() => {
            execute_listing(rt, alloc, words, start, wires)
        }
        Ok(start) if is_offline_dry_run(&start.command) => Worked {
            executed: execute_dry_run(alloc, words, start, limits, files),
            lists: false,
            missed: false,
        },
        Ok(start) => Worked {
            executed: execute_command(alloc, words, start, &limits, files, &mut wires[0]),
            lists: false,
            missed: false,
        },
        Err(fatal) => Worked {
            executed: end_early(alloc, words, fatal),
            lists: false,
            missed: false,
        },
    }
}
