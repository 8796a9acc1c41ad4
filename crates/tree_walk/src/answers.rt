//! What a walk answers.

ghost use Rattle.std.specs.Prelude.{◌≡◌, ◌-◌, ◌^◌, IfErr, IfOk, map, min};
ghost use Rattle.std.specs.FinMap.{get, keys};
ghost use Rattle.std.specs.List.{sum_by};
ghost use Rattle.std.specs.Option.{unwrap_or};
ghost use Rattle.tree_walk.specs.Finding.{entry_in};

use crate::found::{Found, Look};
use crate::walks::Walked;
use s3_model::{Entries, Entry, OutOfMemory, Text, WalkFault};
use std::alloc::Global;
use text_maps::TextMap;

/// What was found, in order.
pub(crate) fn gather(alloc: Global, found: &Found) -> Result<Walked, WalkFault>
    ensures entries { IfOk result (λ walked.
        walked.entries.items ≡ map (entry_in found.now.files) (keys found.now.files)) }
    ensures others { IfOk result (λ walked. walked.others.items ≡ keys found.now.others) }
    ensures unnamed { IfOk result (λ walked. walked.unnamed ≡
        min (sum_by (λ folder. unwrap_or (get found.now.unnamed folder) 0) (keys found.now.unnamed)) (2 ^ 64 - 1)) }
    ensures memory { IfErr result (λ fault. fault ≡ WalkFault.Memory) }
{
    let unnamed = sum_of(alloc, &found.unnamed)?;
    let others = found.others.texts(alloc)?;
    let entries = entries_of(alloc, &found.files)?;
    Ok(Walked {
        entries,
        others,
        unnamed,
    })
}

fn entries_of(alloc: Global, files: &TextMap<Look>) -> Result<Entries, OutOfMemory>
    ensures { IfOk result (λ entries. entries.items ≡ map (entry_in files.now) (keys files.now)) }
{
    let keys = files.texts(alloc)?;
    let mut entries = Entries::make(alloc);
    for key in keys.as_slice() {
        let entry = entry_of(alloc, files, key)?;
        entries.reserve(1)?;
        entries.push(entry);
    }
    Ok(entries)
}

fn entry_of(alloc: Global, files: &TextMap<Look>, key: &Text) -> Result<Entry, OutOfMemory>
    ensures { IfOk result (λ entry. entry ≡ entry_in files.now key.now) }
{
    let look = files
        .get(key.as_str())
        .copied()
        .unwrap_or(Look { size: 0, micros: 0 });
    Ok(Entry {
        key: key.copy()?,
        size: look.size,
        etag: Text::of(alloc, "")?,
        micros: look.micros,
    })
}

// The sum of all counts, up to the last number.
#[tactic(auto, using(crate::proofs::StepLemmas::sum_step))]
fn sum_of(alloc: Global, counts: &TextMap<u64>) -> Result<u64, OutOfMemory>
    ensures { IfOk result (λ sum. sum ≡
        min (sum_by (λ key. unwrap_or (get counts.now key) 0) (keys counts.now)) (2 ^ 64 - 1)) }
{
    let keys = counts.texts(alloc)?;
    let mut sum: u64 = 0;
    for key in keys.as_slice() {
        let count = counts.get(key.as_str()).copied().unwrap_or(0);
        sum = sum.saturating_add(count);
    }
    Ok(sum)
}
