//! The bytes of the local file.

ghost use Rattle.std.specs.Prelude.{◌≡◌, ◌≢◌, ◌≤◌, ◌<◌, length, take, Err, IfOk, IfSome, IsErrOf};
ghost use Rattle.s3_model.specs.Counts.{Rose};
ghost use Rattle.upload_promise.specs.Sources.{AreFirstBytes, HasFewer, Keeps, LooksAt};

use s3_model::Bytes;
use s3_outside::Files;
use std::alloc::Global;

/// Why the bytes of a file did not come.
#[derive(Clone, Copy)]
pub(crate) enum ReadFault {
    Failed,
    Short,
    Memory,
}

/// Reads on from a place of the file, to that place of the bytes, and answers how far it came.
fn read_more<F: Files>(
    files: &mut F,
    path: &str,
    bytes: &mut [u8],
    at: usize,
) -> Result<usize, ReadFault>
    requires { at < length bytes.old }
    ensures further { IfOk result (λ next. (at < next) × (next ≤ length bytes.old)) }
    ensures bytes { IfSome (F.seen files.new) (λ seen. IfOk result (λ next. AreFirstBytes seen.store path.now
        (take at bytes.old) → AreFirstBytes seen.store path.now (take next bytes.new))) }
    ensures short { IfSome (F.seen files.new)
        (λ seen. IsErrOf result ReadFault.Short → HasFewer seen.store path.now (length bytes.old)) }
    ensures failed { IsErrOf result ReadFault.Failed → Rose (F.faults files.old) (F.faults files.new) }
    ensures memory { result ≢ Err ReadFault.Memory }
    ensures files { Keeps (F.seen files.old) (F.seen files.new) }
    ensures looks { LooksAt path.now (F.seen files.old) (F.seen files.new) }
    ensures later { F.faults files.old ≤ F.faults files.new }
{
    match files.read_at(path, at as u64, &mut bytes[at..]) {
        Ok(0) => Err(ReadFault::Short),
        Ok(count) => Ok(at + count),
        Err(_) => Err(ReadFault::Failed),
    }
}

/// Fills a place with the first bytes of a file.
fn fill_from<F: Files>(files: &mut F, path: &str, place: &mut [u8]) -> Result<(), ReadFault>
    ensures length { length place.new ≡ length place.old }
    ensures bytes { IfSome (F.seen files.new)
        (λ seen. IfOk result (λ done. AreFirstBytes seen.store path.now place.new)) }
    ensures short { IfSome (F.seen files.new)
        (λ seen. IsErrOf result ReadFault.Short → HasFewer seen.store path.now (length place.old)) }
    ensures failed { IsErrOf result ReadFault.Failed → Rose (F.faults files.old) (F.faults files.new) }
    ensures memory { result ≢ Err ReadFault.Memory }
    ensures files { Keeps (F.seen files.old) (F.seen files.new) }
    ensures looks { LooksAt path.now (F.seen files.old) (F.seen files.new) }
    ensures later { F.faults files.old ≤ F.faults files.new }
{
    let mut at: usize = 0;
    'pieces: while at < place.len() {
        at = read_more(files, path, place, at)?;
    }
    Ok(())
}

/// The bytes of a file, of which there must be `size`.
pub(crate) fn read_whole<F: Files>(
    alloc: Global,
    files: &mut F,
    path: &str,
    size: u64,
) -> Result<Bytes, ReadFault>
    ensures length { IfOk result (λ made. length made.bytes ≡ size) }
    ensures bytes { IfSome (F.seen files.new)
        (λ seen. IfOk result (λ made. AreFirstBytes seen.store path.now made.bytes)) }
    ensures short { IfSome (F.seen files.new)
        (λ seen. IsErrOf result ReadFault.Short → HasFewer seen.store path.now size) }
    ensures failed { IsErrOf result ReadFault.Failed → Rose (F.faults files.old) (F.faults files.new) }
    ensures files { Keeps (F.seen files.old) (F.seen files.new) }
    ensures looks { LooksAt path.now (F.seen files.old) (F.seen files.new) }
    ensures later { F.faults files.old ≤ F.faults files.new }
{
    let Ok(mut bytes) = Bytes::make(alloc, size) else {
        return Err(ReadFault::Memory);
    };
    bytes.grow(size as usize);
    fill_from(files, path, bytes.as_mut_slice())?;
    Ok(bytes)
}
