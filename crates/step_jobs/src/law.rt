//! The law, a function that does nothing.

ghost use Rattle.step_jobs.specs.Requests.{ReadyStepsHaveRequests};

/// Each step of a task that is ready has a request, and its piece begins within the size of the task.
pub fn ready_steps_have_requests()
    ensures { ReadyStepsHaveRequests }
{}
