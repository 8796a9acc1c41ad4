//! How what halts a planning ends a run.

ghost use Rattle.std.specs.Prelude.{◌≡◌};
ghost use Rattle.run_report.specs.Texts.{HasLine};
ghost use Rattle.service_dry_runs.specs.Endings.{MayHalt, MayHaltBy, fatal_for, halt_fatal};

use planning_questions::Halt;
use run_report::Fatal;
use s3_model::{BadListing, PlanFault, WalkFault};
use service_plans::Halted;

/// How a question that has no answer ends a run.
fn halt_fatal(why: Halt) -> Fatal
    requires { MayHaltBy why }
    ensures is { result ≡ halt_fatal why }
    ensures line { HasLine result }
{
    match why {
        Halt::Answer(cause) => Fatal::Answer(cause),
        Halt::Listing(BadListing::Memory) => Fatal::Memory,
        Halt::Listing(fault) => Fatal::Listing(fault),
        Halt::Memory => Fatal::Memory,
        Halt::Stranger => unreachable!(),
    }
}

/// How a planning without a plan ends a run.
pub(crate) fn fatal_for(why: Halted) -> Fatal
    requires { MayHalt why }
    ensures is { result ≡ fatal_for why }
    ensures line { HasLine result }
{
    match why {
        Halted::Asked(halt) => halt_fatal(halt),
        Halted::Walk(WalkFault::Memory) => Fatal::Memory,
        Halted::Walk(fault) => Fatal::Walk(fault),
        Halted::Plan(PlanFault::Memory) => Fatal::Memory,
        Halted::Plan(fault) => Fatal::Plan(fault),
    }
}
