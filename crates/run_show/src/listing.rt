//! What a service lists.

ghost use Rattle.std.specs.Prelude.{◌≡◌, ◌≤◌, [], true, None, Some, IfErr, IfSome, map, string_bytes, vec_len};
ghost use Rattle.s3_model.specs.Places.{IsListed};
ghost use Rattle.s3_model.specs.Validity.{IsWithin};
ghost use Rattle.run_report.specs.Texts.{HasLine, IsTextOf};
ghost use Rattle.run_show.specs.Listings.{
  HasListed,
  IsListingEnd,
  IsMade,
  Lists,
  MayEndListing,
  OnFirstAlone,
  fatal_for,
};

use planning_questions::Halt;
use run_report::{Executed, Fatal, Printout, Run, Worked, ending_text};
use run_start::Start;
use s3_model::{BadListing, Journal, Outcomes, Plan, Tasks, Warnings};
use s3_outside::Wire;
use service_listings::{ListingRun, Shown, show_listing};
use std::alloc::Global;
use std::mem;
use std::sync::Wait;
use std::thread::Threads;

/// How a listing that has no end ends a run.
fn fatal_for(why: Halt) -> Fatal
    requires { MayEndListing why }
    ensures is { result ≡ fatal_for why }
    ensures line { HasLine result }
{
    match why {
        Halt::Listing(BadListing::Memory) => Fatal::Memory,
        Halt::Listing(refused) => Fatal::Listing(refused),
        Halt::Answer(cause) => Fatal::Answer(cause),
        Halt::Memory => Fatal::Memory,
        Halt::Stranger => unreachable!(),
    }
}

/// A run without a task, whose jobs are the requests of a listing.
fn listing_run(alloc: Global, fatal: Option<Fatal>, journal: Journal) -> Run
    ensures listed { HasListed fatal result }
    ensures journal { result.journal ≡ journal }
{
    Run {
        status: 0,
        plan: Plan {
            tasks: Tasks::make(alloc),
            warnings: Warnings::make(alloc),
        },
        outcomes: Outcomes::make(alloc),
        journal,
        warnings: Warnings::make(alloc),
        fatal,
    }
}

/// Ends a run whose listing has no end.
fn end_unlisted(alloc: Global, words: &[String], fatal: Fatal, journal: Journal) -> Executed
    requires { HasLine fatal }
    ensures text { IsTextOf (map string_bytes words.now) [] result.run result.text }
    ensures listed { HasListed (Some fatal) result.run }
    ensures journal { result.run.journal ≡ journal }
{
    let text = ending_text(alloc, words, &fatal);
    Executed {
        run: listing_run(alloc, Some(fatal), journal),
        text,
    }
}

/// Ends a run that listed.
fn end_listing(
    alloc: Global,
    words: &[String],
    listed: Result<Shown, Halt>,
    journal: Journal,
) -> Worked
    requires { IfErr listed MayEndListing }
    ensures made { IsMade (map string_bytes words.now) listed result.executed.run result.executed.text result.missed }
    ensures lists { result.lists ≡ true }
    ensures journal { result.executed.run.journal ≡ journal }
{
    match listed {
        Ok(Shown { text, missed }) => Worked {
            executed: Executed {
                run: listing_run(alloc, None, journal),
                text: Ok(Printout::of_out(alloc, text)),
            },
            lists: true,
            missed,
        },
        Err(why) => Worked {
            executed: end_unlisted(alloc, words, fatal_for(why), journal),
            lists: true,
            missed: false,
        },
    }
}

/// Lists what a command asks for, over a lane of the first wire: one request after the other, each with at most the
/// attempts of the settings. Then the wire stands in its place again.
pub fn execute_listing<
    R: Threads + Wait + Clone + Send + Drop + 'static,
    W: Wire + Send + Drop + 'static,
>(rt: &R, alloc: Global, words: &[String], start: Start, wires: &mut Vec<W>) -> Worked
    requires listed { IsListed start.command.from }
    requires attempts { IsWithin 1 start.settings.config.attempts 10 }
    requires wire { 1 ≤ vec_len wires.old }
    ensures listed { Lists W.seen (map string_bytes words.now) start.command start.settings wires.old.items
        wires.new.items result.executed.run result.executed.text result.missed }
    ensures stops { IfSome result.executed.run.fatal (IsListingEnd start.command.from) }
    ensures lists { result.lists ≡ true }
    ensures later { OnFirstAlone wires.old.items wires.new.items (λ before after. W.faults before ≤ W.faults after) }
{
    let Start { command, settings } = start;
    let run = show_listing(
        rt,
        alloc,
        wires,
        1,
        &command.endpoint,
        &settings,
        &command.from,
        command.recursive,
    );
    mem::drop(command);
    mem::drop(settings);
    let ListingRun { shown, journal } = run;
    end_listing(alloc, words, shown, journal)
}
