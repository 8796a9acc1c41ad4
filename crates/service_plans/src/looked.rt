//! The warnings of looking at local files.

ghost use Rattle.std.specs.Prelude.{◌≡◌, ◌⊎◌, ◌++◌, ◌∷◌, [], IfOk, OnOk, map};
ghost use Rattle.service_plans.specs.Looked.{looked_in, not_a_file, unnamed_in};

use s3_model::{OutOfMemory, Text, Warning, Warnings};
use s3_paths::joined;
use std::alloc::Global;
use std::mem;
use tree_walk::Walked;

fn add(warnings: &mut Warnings, warning: Warning) -> Result<(), OutOfMemory>
    ensures { OnOk result (warnings.new.items ≡ warnings.old.items ++ warning ∷ []) }
{
    warnings.reserve(1)?;
    warnings.push(warning);
    Ok(())
}

/// Adds a warning of each path that is neither file nor folder.
fn add_others(
    alloc: Global,
    warnings: &mut Warnings,
    root: &str,
    others: &[Text],
) -> Result<(), OutOfMemory>
    ensures { OnOk result (warnings.new.items ≡ warnings.old.items ++ map (not_a_file root.now) others.now) }
{
    for path in others {
        let path = joined(alloc, root, path.as_str())?;
        add(warnings, Warning::NotAFile(path))?;
    }
    Ok(())
}

fn add_unnamed(warnings: &mut Warnings, unnamed: u64) -> Result<(), OutOfMemory>
    ensures { OnOk result (warnings.new.items ≡ warnings.old.items ++ unnamed_in unnamed) }
{
    if unnamed == 0 {
        return Ok(());
    }
    add(warnings, Warning::Unnamed(unnamed))
}

/// The warnings of what a walk found below a root.
pub(crate) fn looked_in(alloc: Global, root: &str, walked: &Walked) -> Result<Warnings, OutOfMemory>
    ensures { IfOk result (λ looked. looked.items ≡
        looked_in root.now walked.now.others.items walked.now.unnamed) }
{
    let mut warnings = Warnings::make(alloc);
    add_unnamed(&mut warnings, walked.unnamed)?;
    add_others(alloc, &mut warnings, root, walked.others.as_slice())?;
    Ok(warnings)
}

/// The warning that what stands at a path is neither file nor folder.
pub(crate) fn not_a_file(alloc: Global, path: Text) -> Result<Warnings, OutOfMemory>
    ensures { IfOk result (λ looked. looked.items ≡ Warning.NotAFile path ∷ []) }
{
    let mut warnings = Warnings::make(alloc);
    add(&mut warnings, Warning::NotAFile(path))?;
    Ok(warnings)
}

/// The warnings of the two sides of a plan, of which one has none.
pub(crate) fn of_both(source: Warnings, dest: Warnings) -> Warnings
    requires { (source.items ≡ []) ⊎ (dest.items ≡ []) }
    ensures { result.items ≡ source.items ++ dest.items }
{
    if source.is_empty() {
        mem::drop(source);
        dest
    } else {
        mem::drop(dest);
        source
    }
}
