//! The top call.

ghost use Rattle.std.specs.Prelude.{◌≤◌, ◌⊎◌, map, string_bytes, vec_len, IfSome};
ghost use Rattle.s3_model.specs.Counts.{Rose};
ghost use Rattle.dry_runs.specs.Found.{files_seen};
ghost use Rattle.s3_main.specs.DryRuns.{LooksFor};
ghost use Rattle.run_report.specs.Printed.{output_of};
ghost use Rattle.run_start.specs.Settings.{AsksOnly};
ghost use Rattle.s3_main.specs.Runs.{
  EndsAsShown,
  GoesAs,
  IfSeen,
  IsPrinted,
  IsTrue,
  StopsFor,
  Undertakes,
  files_over,
};
ghost use Rattle.s3_main.specs.Wires.{OnEach, OnFirst, OnlyFirstGains, OnWires};

use crate::execution::execute;
use run_report::{Run, report};
use s3_outside::{Env, Files, Sink, Wire};
use std::alloc::Global;
use std::sync::Wait;
use std::thread::Threads;

/// Does what the words of a command line say, which follow the program's name, and prints what it came to.
///
/// By now it does `presign`, which prints a URL from the first wire's moment on and makes no talk; `ls`, which asks for
/// the buckets or for the pages of a listing (Amazon S3 API Reference, "ListBuckets", "ListObjectsV2") and then prints
/// a row of each prefix and of each object; and `cp` of one local file to an object, which goes up in one Put
/// ("PutObject"). Each request, of `ls` too, is tried again as the settings say (`max_attempts`), with pauses of 1, 2,
/// 4 .. 20 seconds, and all go over the first wire. Of `cp` and `mv` from local files, trees among them, and of `rm`
/// for one object it does the dry run, which shows each task in order, and sends and changes nothing. The other
/// commands, and a file of the settings' threshold or more that is to be sent, are refused with 252, and so are faulty
/// words (AWS CLI Command Reference, `s3`). The status is 253 where the settings are refused or a file of them was not
/// read; 0 where the file is copied, or left out by a filter, or the plan of a dry run is shown; 1 where it failed,
/// where nobody can know, where it is not there, is a folder or could not be looked at; 2 where a name was skipped
/// with a warning. Of `ls` it is 0, or 1 where a key was given and nothing found; 254 where the service refused a
/// request, and 255 where nobody can know its answer by its last attempt or a page is refused; then no row is printed.
/// Where memory ran out the status is 70, and after a fault of an output 74.
pub fn run_s3<R, W, F, O, X, E>(
    rt: &R,
    alloc: Global,
    words: &[String],
    env: &mut E,
    files: &mut F,
    wires: &mut Vec<W>,
    out: &mut O,
    err: &mut X,
) -> Run
where
    R: Threads + Wait + Clone + Send + Sync + Drop + 'static,
    W: Wire + Send + Drop + 'static,
    F: Files,
    O: Sink,
    X: Sink,
    E: Env,
    requires some { 1 ≤ vec_len wires.old }
    requires most { vec_len wires.old ≤ 65535 }

    // What was planned, what became of it and what the first wire gained for it, and that the other wires stay.
    ensures went { OnWires (map string_bytes words.now) (E.seen env.new) (λ wire. W.seen wire) wires.old.items
        wires.new.items (λ logs notes. OnlyFirstGains logs notes
        × GoesAs (map string_bytes words.now) (E.seen env.new) (E.allows env.old)
        (F.seen files.old) (F.seen files.new) (F.faults files.old) (F.faults files.new) result (logs 0) (notes 0)) }

    // Over every honest service, and whatever is lost, refused or late, the outcomes are true.
    ensures truthful { OnWires (map string_bytes words.now) (E.seen env.new) (λ wire. W.seen wire) wires.old.items
        wires.new.items (λ logs notes. IfSeen (F.seen files.old) (F.seen files.new) (λ was now.
        IsTrue (map string_bytes words.now) (E.seen env.new) (E.allows env.old) (vec_len wires.old)
        (files_over was now (F.faults files.old) (F.faults files.new)) result logs notes)) }

    ensures stops { IfSome result.fatal (StopsFor (map string_bytes words.now) (E.seen env.new) (E.faults env.old)
        (E.faults env.new) (E.allows env.old) (files_seen (F.seen files.old) (F.seen files.new) (F.faults files.old)
        (F.faults files.new))) }
    ensures status { OnFirst wires.old.items wires.new.items (λ before after.
        EndsAsShown (map string_bytes words.now) (E.seen env.new) (W.seen before) (W.seen after) result
        (Rose (O.faults out.old) (O.faults out.new) ⊎ Rose (X.faults err.old) (X.faults err.new))) }
    ensures printed { OnFirst wires.old.items wires.new.items (λ before after.
        IsPrinted (map string_bytes words.now) (E.seen env.new) (W.seen before) (W.seen after) result
        (output_of (O.seen out.old) (O.seen out.new) (O.faults out.old) (O.faults out.new))
        (output_of (X.seen err.old) (X.seen err.new) (X.faults err.old) (X.faults err.new))) }

    // What needs no look at wires, files and variables: the plan and its warnings as the words say, the outcome and the
    // jobs that it wants.
    ensures does { Undertakes (map string_bytes words.now) (E.allows env.old) (F.faults files.old) (F.faults files.new)
        result }

    // Of the environment only the settings files are asked for, each at most once.
    ensures asked { AsksOnly (E.seen env.old) (E.seen env.new) (E.faults env.old) (E.faults env.new) }

    // The files stay, and only the path of the words is asked for, or a dry run makes only calls that look.
    ensures files { LooksFor (map string_bytes words.now) (files_seen (F.seen files.old) (F.seen files.new)
        (F.faults files.old) (F.faults files.new)) }

    // No count of faults falls.
    ensures env_later { E.faults env.old ≤ E.faults env.new }
    ensures files_later { F.faults files.old ≤ F.faults files.new }
    ensures wires_later { OnEach wires.old.items wires.new.items (λ before after. W.faults before ≤ W.faults after) }
    ensures out_later { O.faults out.old ≤ O.faults out.new }
    ensures err_later { X.faults err.old ≤ X.faults err.new }
{
    let worked = execute(rt, alloc, words, env, files, wires);
    report(worked, out, err)
}
