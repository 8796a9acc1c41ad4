//! The warnings of planning.

ghost use Rattle.std.specs.Prelude.{◌≡◌, ◌++◌, ◌∷◌, [], IfOk, OnOk, map};
ghost use Rattle.dry_runs.specs.Looked.{looked_in, not_a_file, unnamed_warnings};

use s3_model::{OutOfMemory, Text, Warning, Warnings};
use s3_paths::joined;
use std::alloc::Global;
use tree_walk::Walked;

fn add(warnings: &mut Warnings, warning: Warning) -> Result<(), OutOfMemory>
    ensures { OnOk result (warnings.new.items ≡ warnings.old.items ++ warning ∷ []) }
{
    warnings.reserve(1)?;
    warnings.push(warning);
    Ok(())
}

fn copy_of(warning: &Warning) -> Result<Warning, OutOfMemory>
    ensures { IfOk result (λ copy. copy ≡ warning.now) }
{
    Ok(match warning {
        Warning::Skipped { place, why } => Warning::Skipped {
            place: place.copy()?,
            why: *why,
        },
        Warning::Unnamed(count) => Warning::Unnamed(*count),
        Warning::NotAFile(path) => Warning::NotAFile(path.copy()?),
        Warning::TimeNotSet(path) => Warning::TimeNotSet(path.copy()?),
        Warning::TempLeft(path) => Warning::TempLeft(path.copy()?),
    })
}

/// Adds copies of warnings.
fn add_copies(warnings: &mut Warnings, more: &[Warning]) -> Result<(), OutOfMemory>
    ensures { OnOk result (warnings.new.items ≡ warnings.old.items ++ more.now) }
{
    for warning in more {
        let copy = copy_of(warning)?;
        add(warnings, copy)?;
    }
    Ok(())
}

/// The warnings of looking, and behind them those of a plan.
pub(crate) fn with_skips(mut looked: Warnings, skips: &Warnings) -> Result<Warnings, OutOfMemory>
    ensures { IfOk result (λ all. all.items ≡ looked.items ++ skips.now.items) }
{
    add_copies(&mut looked, skips.as_slice())?;
    Ok(looked)
}

/// Adds a warning of each path that is neither file nor folder.
fn add_others(
    alloc: Global,
    warnings: &mut Warnings,
    root: &str,
    others: &[Text],
) -> Result<(), OutOfMemory>
    ensures { OnOk result (warnings.new.items ≡ warnings.old.items ++ map (not_a_file root.now) others.now) }
{
    for path in others {
        let path = joined(alloc, root, path.as_str())?;
        add(warnings, Warning::NotAFile(path))?;
    }
    Ok(())
}

fn add_unnamed(warnings: &mut Warnings, unnamed: u64) -> Result<(), OutOfMemory>
    ensures { OnOk result (warnings.new.items ≡ warnings.old.items ++ unnamed_warnings unnamed) }
{
    if unnamed == 0 {
        return Ok(());
    }
    add(warnings, Warning::Unnamed(unnamed))
}

/// The warnings of what a walk found below a root.
pub(crate) fn looked_in(alloc: Global, root: &str, walked: &Walked) -> Result<Warnings, OutOfMemory>
    ensures { IfOk result (λ looked. looked.items ≡
        looked_in root.now walked.now.others.items walked.now.unnamed) }
{
    let mut warnings = Warnings::make(alloc);
    add_unnamed(&mut warnings, walked.unnamed)?;
    add_others(alloc, &mut warnings, root, walked.others.as_slice())?;
    Ok(warnings)
}
