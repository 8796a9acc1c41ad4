//! The laws, functions that do nothing.

ghost use Rattle.desk_promise.specs.Desk.{DeskRunsKeepPromise};
ghost use Rattle.desk_promise.specs.Wires.{LanesGain};
ghost use Rattle.desk_promise.specs.Witness.{DoneIsNotIdle, DryRunIsMet};

use s3_outside::Wire;
use world_laws::Command;

/// A run that asked questions of its planning over lanes that were joined, gave no job of a task and made no call that
/// changes files keeps its promise, for any number of lanes: a listing, a dry run with a Dry for each task, a command
/// that ended in its planning. A dry run that lists two pages over two lanes and would remove an object meets what this
/// takes, whatever talks bring the pages; one that says of its task that it is done does not.
pub fn desk_runs_keep_promise<W: Wire, C: Command>()
    ensures keeps { DeskRunsKeepPromise W.seen C.call_failed }
    ensures met { DryRunIsMet }
    ensures done { DoneIsNotIdle }
{}

/// Where the wires of joined lanes are all seen in the end, each gained talks and notes behind those before.
pub fn lanes_gain<W: Wire>()
    ensures { LanesGain W.seen }
{}
