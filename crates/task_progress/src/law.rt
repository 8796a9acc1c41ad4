//! The law, a function that does nothing.

ghost use Rattle.task_progress.specs.Progress.{OutcomesAreExact, TagsAreThere, TasksEnd, WorkHasPieces};

/// A task has an outcome exactly where no act is ready and none is out, whatever came back before, in which order, and
/// wherever the run was cancelled. Each part has its entity tag before an upload is completed. It takes work with at
/// least one piece, and one alone where it is small, as the work of every task has.
pub fn each_task_ends()
    ensures ends { TasksEnd }
    ensures exact { OutcomesAreExact }
    ensures tags { TagsAreThere }
    ensures pieces { WorkHasPieces }
{}
