//! What carries jobs.

/// What carries jobs, one after another.
pub trait Worker: Send + Drop {
    type Job: Send + Drop;

    type Done: Send + Drop;

    /// The worker before, a job, its outcome, and the worker after carrying that job.
    ghost carries: { Self → Self.Job → Self.Done → Self → Type 0 };

    fn carry(&mut self, job: Self::Job) -> Self::Done
        ensures { carries self.old job result self.new };
}
