//! The tasks and warnings of a plan.

ghost use Rattle.std.specs.Prelude.{◌≡◌, IfOk};
ghost use Rattle.std.specs.Arc.{arc_value};

use crate::faults::KeySkip;
use crate::list::{OutOfMemory, Tasks, Warnings};
use crate::places::Place;
use crate::text::Text;
use std::alloc::Global;
use std::sync::Arc;

#[derive(Clone, Copy, Debug, PartialEq, Eq)]
pub enum Kind {
    Upload,
    Download,
    Copy,
    RemoveObject,
    RemoveFile,
}

/// One file or object that is transferred or removed.
#[derive(Drop)]
pub struct Task {
    pub kind: Kind,
    pub moves: bool,
    pub source: Option<Place>,
    pub dest: Place,
    pub size: u64,
    pub etag: Text,
    pub micros: u64,
    pub content: Option<Text>,
    /// It replaces nothing: a destination that is there stays.
    pub fresh: bool,
}

impl Task {
    fn copy_places(&self) -> Result<(Option<Place>, Place), OutOfMemory>
        ensures source { IfOk result (λ places. places.0 ≡ self.now.source) }
        ensures dest { IfOk result (λ places. places.1 ≡ self.now.dest) }
    {
        let source = Place::copy_option(&self.source)?;
        let dest = self.dest.copy()?;
        Ok((source, dest))
    }

    /// The entity tag and the content type.
    fn copy_texts(&self) -> Result<(Text, Option<Text>), OutOfMemory>
        ensures etag { IfOk result (λ texts. texts.0 ≡ self.now.etag) }
        ensures content { IfOk result (λ texts. texts.1 ≡ self.now.content) }
    {
        let etag = self.etag.copy()?;
        let content = Text::copy_option(&self.content)?;
        Ok((etag, content))
    }

    /// The same task in texts of its own.
    pub fn copy(&self) -> Result<Task, OutOfMemory>
        ensures { IfOk result (λ copy. copy ≡ self.now) }
    {
        let (etag, content) = self.copy_texts()?;
        let (source, dest) = self.copy_places()?;
        Ok(Task {
            kind: self.kind,
            moves: self.moves,
            source,
            dest,
            size: self.size,
            etag,
            micros: self.micros,
            content,
            fresh: self.fresh,
        })
    }

    /// A copy of a task that its jobs share.
    pub fn share(&self, alloc: Global) -> Result<Arc<Task, Global>, OutOfMemory>
        ensures { IfOk result (λ shared. arc_value shared ≡ self.now) }
    {
        Ok(Arc::new(alloc, self.copy()?)?)
    }
}

/// How two times of one name are compared.
#[derive(Clone, Copy)]
pub enum Times {
    Usual,
    SizeOnly,
    Exact,
}

/// Which lines are printed.
#[derive(Clone, Copy)]
pub struct Mode {
    pub dryrun: bool,
    pub quiet: bool,
    pub only_errors: bool,
}

/// What is printed beside the outcome of a task.
#[derive(Drop)]
pub enum Warning {
    Skipped { place: Place, why: KeySkip },
    Unnamed(u64),
    NotAFile(Text),
    TimeNotSet(Text),
    TempLeft(Text),
}

/// What a command is to do, in order.
#[derive(Drop)]
pub struct Plan {
    pub tasks: Tasks,
    pub warnings: Warnings,
}
