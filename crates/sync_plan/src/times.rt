//! Whether two entries of one name differ.

ghost use Rattle.std.specs.Prelude.{◌≡◌};
ghost use Rattle.sync_plan.specs.Times.{differs, times_differ};

use s3_model::{Entry, Kind, Times};

/// `source` and `dest` are in whole microseconds since 1970.
fn times_differ(kind: Kind, times: Times, source: u64, dest: u64) -> bool
    ensures { result ≡ times_differ kind times source dest }
{
    match (times, kind) {
        (Times::SizeOnly, _) => false,
        (Times::Exact, Kind::Download) => source != dest,
        (Times::Usual, Kind::Download) => dest > source,
        _ => dest < source,
    }
}

/// Whether a name that stands on both sides is to be transferred: its sizes differ, or its times do.
///
/// Times of an upload or a copy count as equal where the destination's is not earlier than the source's, those of a
/// download where the local one is not later than the object's; under `Times::Exact` a download's only where they are
/// the same. Under `Times::SizeOnly` no times differ (AWS CLI Command Reference, `s3 sync`).
pub fn differs(source: &Entry, dest: &Entry, kind: Kind, times: Times) -> bool
    ensures { result ≡ differs source.now dest.now kind times }
{
    source.size != dest.size || times_differ(kind, times, source.micros, dest.micros)
}
