//! The law of planning, a function that does nothing.

ghost use Rattle.service_plans.specs.Needs.{PlansAskForNeeds};

/// What [`crate::plan_served`] asks is what its command needs to know, in order, and nothing behind the first need that
/// is not met, nor behind a fault of local files, of the plan or of memory.
pub fn plans_ask_for_needs()
    ensures { PlansAskForNeeds }
{}
