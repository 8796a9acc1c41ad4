//! Why a command has no plan.

ghost use Rattle.std.specs.Prelude.{◌≡◌};
ghost use Rattle.service_plans.specs.Faults.{plan_halted, walk_halted};

use planning_questions::Halt;
use s3_model::{OutOfMemory, PlanFault, WalkFault};

/// Why a command has no plan.
#[derive(Drop)]
pub enum Halted {
    /// A question to the service has no answer, or a page of a listing is refused, or memory ran out, for whatever.
    Asked(Halt),
    /// Local files could not be looked at, or a tree of them is refused; never for memory.
    Walk(WalkFault),
    /// The local source is none, or the plan is refused; never for memory.
    Plan(PlanFault),
}

impl From<Halt> for Halted {
    ghost use Rattle.std.specs.Prelude.{◌≡◌};
    ghost use Rattle.service_plans.specs.declared.halted.Halted.TheVariants.{Asked};

    ghost from_gives = { λ why halted. halted ≡ Asked why };

    fn from(why: Halt) -> Halted {
        Halted::Asked(why)
    }
}

impl From<OutOfMemory> for Halted {
    ghost use Rattle.std.specs.Prelude.{◌≡◌};
    ghost use Rattle.planning_questions.specs.declared.halt.Halt.TheVariants.{Memory};
    ghost use Rattle.service_plans.specs.declared.halted.Halted.TheVariants.{Asked};

    ghost from_gives = { λ _ halted. halted ≡ Asked Memory };

    fn from(_: OutOfMemory) -> Halted {
        Halted::Asked(Halt::Memory)
    }
}

/// How a fault of a walk ends the planning.
pub(crate) fn walk_halted(fault: WalkFault) -> Halted
    ensures { result ≡ walk_halted fault }
{
    match fault {
        WalkFault::Memory => Halted::Asked(Halt::Memory),
        other => Halted::Walk(other),
    }
}

/// How a refused plan ends the planning.
pub(crate) fn plan_halted(fault: PlanFault) -> Halted
    ensures { result ≡ plan_halted fault }
{
    match fault {
        PlanFault::Memory => Halted::Asked(Halt::Memory),
        other => Halted::Plan(other),
    }
}
