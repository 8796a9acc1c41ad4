//! Faults of calls on files.

ghost use Rattle.std.specs.Prelude.{◌≡◌, ◌≤◌};
ghost use Rattle.s3_outside.specs.FileCalls.{HasRisen, IsBlockedAt};

use crate::files::FileFault;
use crate::wire::count_fault;

/// Something is in the way. A length that has no number of its own counts as a fault.
pub fn blocked(length: usize, faults: &mut u64) -> FileFault
    ensures length { IsBlockedAt length result }
    ensures later { faults.old ≤ faults.new }
    ensures failed { HasRisen faults.old faults.new result }
{
    match u32::try_from(length) {
        Ok(length) => FileFault::Blocked { length },
        Err(_) => {
            count_fault(faults);
            FileFault::Failed
        }
    }
}

/// A fault of the disk, counted.
pub fn fault(faults: &mut u64) -> FileFault
    ensures value { result ≡ FileFault.Failed }
    ensures later { faults.old ≤ faults.new }
    ensures failed { HasRisen faults.old faults.new result }
{
    count_fault(faults);
    FileFault::Failed
}
