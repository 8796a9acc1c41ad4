//! Lines go out.

ghost use Rattle.std.specs.Prelude.{◌≡◌, ◌≤◌, ◌<◌, ◌-◌, length, take, drop, IfOk, OnOk, OnErr};
ghost use Rattle.s3_model.specs.Counts.{Rose};
ghost use Rattle.run_report.specs.Printed.{Prints, PrintsFront};

use s3_outside::{Failed, Sink};

/// Writes on from a place, and answers how far it came.
fn write_more<S: Sink>(sink: &mut S, bytes: &[u8], at: usize) -> Result<usize, Failed>
    requires { at < length bytes.now }
    ensures further { IfOk result (λ next. (at < next) × (next ≤ length bytes.now)) }
    ensures printed { IfOk result (λ next. Prints (S.seen sink.old) (S.seen sink.new)
        (take (next - at) (drop at bytes.now))) }
    ensures nothing { OnErr result (S.seen sink.new ≡ S.seen sink.old) }
    ensures failed { OnErr result (Rose (S.faults sink.old) (S.faults sink.new)) }
    ensures later { S.faults sink.old ≤ S.faults sink.new }
{
    let count = sink.put(&bytes[at..])?;
    Ok(at + count)
}

/// Writes a whole text; after a fault a beginning of it was written.
pub(crate) fn write_text<S: Sink>(sink: &mut S, text: &str) -> Result<(), Failed>
    ensures whole { OnOk result (Prints (S.seen sink.old) (S.seen sink.new) text.now) }
    ensures front { OnErr result (PrintsFront (S.seen sink.old) (S.seen sink.new) text.now) }
    ensures failed { OnErr result (Rose (S.faults sink.old) (S.faults sink.new)) }
    ensures later { S.faults sink.old ≤ S.faults sink.new }
{
    let bytes = text.as_bytes();
    let mut at: usize = 0;
    'pieces: while at < bytes.len() {
        match write_more(sink, bytes, at) {
            Ok(next) => at = next,
            Err(failed) => return Err(failed),
        }
    }
    Ok(())
}
