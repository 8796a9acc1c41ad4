//! What stands at the local source of an upload.

ghost use Rattle.std.specs.Prelude.{◌≡◌, IfOk};
ghost use Rattle.command_errands.specs.Entries.{file_entry};
ghost use Rattle.command_errands.specs.Sources.{HasCause, local_source};

use path_names::last_name;
use s3_model::{Entry, OutOfMemory, PlanFault, Text};
use s3_outside::Shape;
use std::alloc::Global;

/// What the local source of an upload comes to.
#[derive(Drop)]
pub enum LocalSource {
    /// Nothing stands there, or a folder where one file is wanted, or no folder where many names are.
    Refused(PlanFault),
    /// What stands there is neither file nor folder: nothing is uploaded, and a warning says so.
    NotAFile(Text),
    /// The one file, with its name.
    File(Entry),
    /// The folder whose files are to be found.
    Folder,
}

/// The entry of a file: its name is what stands behind the last `/` of its path.
fn file_entry(alloc: Global, path: &str, size: u64, micros: u64) -> Result<Entry, OutOfMemory>
    ensures { IfOk result (λ entry. entry ≡ file_entry path.now size micros) }
{
    let key = Text::of(alloc, last_name(path))?;
    let etag = Text::of(alloc, "")?;
    Ok(Entry {
        key,
        size,
        etag,
        micros,
    })
}

/// What the local source of an upload comes to, by what stands at its path. `many` says that all files below it are
/// wanted, as for `sync` and under `--recursive`, and else it is one file (AWS CLI Command Reference, `s3 cp`).
///
/// Where nothing stands there the fault is `NoSource`. For one file a folder is the fault `IsFolder`; for many, what is
/// no folder is the fault `NotFolder`. Each names the path.
pub fn local_source(
    alloc: Global,
    path: &str,
    many: bool,
    shape: Shape,
) -> Result<LocalSource, OutOfMemory>
    ensures source { IfOk result (λ source. source ≡ local_source many path.now shape) }
    ensures cause { IfOk result (HasCause many path.now shape) }
{
    match shape {
        Shape::Absent => Ok(LocalSource::Refused(PlanFault::NoSource(Text::of(alloc, path)?))),
        Shape::Folder if many => Ok(LocalSource::Folder),
        Shape::Folder => Ok(LocalSource::Refused(PlanFault::IsFolder(Text::of(alloc, path)?))),
        _ if many => Ok(LocalSource::Refused(PlanFault::NotFolder(Text::of(alloc, path)?))),
        Shape::Other => Ok(LocalSource::NotAFile(Text::of(alloc, path)?)),
        Shape::File { size, micros } => {
            Ok(LocalSource::File(file_entry(alloc, path, size, micros)?))
        }
    }
}
