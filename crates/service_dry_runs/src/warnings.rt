//! The warnings of a dry run.

ghost use Rattle.std.specs.Prelude.{◌≡◌, ◌++◌, ◌∷◌, [], IfOk, OnOk};

use s3_model::{OutOfMemory, Warning, Warnings};

fn copy_of(warning: &Warning) -> Result<Warning, OutOfMemory>
    ensures { IfOk result (λ copy. copy ≡ warning.now) }
{
    Ok(match warning {
        Warning::Skipped { place, why } => Warning::Skipped {
            place: place.copy()?,
            why: *why,
        },
        Warning::Unnamed(count) => Warning::Unnamed(*count),
        Warning::NotAFile(path) => Warning::NotAFile(path.copy()?),
        Warning::TimeNotSet(path) => Warning::TimeNotSet(path.copy()?),
        Warning::TempLeft(path) => Warning::TempLeft(path.copy()?),
    })
}

/// Adds copies of warnings.
fn add_copies(warnings: &mut Warnings, more: &[Warning]) -> Result<(), OutOfMemory>
    ensures { OnOk result (warnings.new.items ≡ warnings.old.items ++ more.now) }
{
    for warning in more {
        let copy = copy_of(warning)?;
        warnings.reserve(1)?;
        warnings.push(copy);
    }
    Ok(())
}

/// The warnings of looking, and behind them those of a plan.
pub(crate) fn with_skips(mut looked: Warnings, skips: &Warnings) -> Result<Warnings, OutOfMemory>
    ensures { IfOk result (λ all. all.items ≡ looked.items ++ skips.now.items) }
{
    add_copies(&mut looked, skips.as_slice())?;
    Ok(looked)
}
