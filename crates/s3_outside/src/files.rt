//! The local files.

ghost use Rattle.std.specs.Prelude.{◌≡◌, ◌≢◌, ◌≤◌, ℕ, Option, length, IfOk, IfErr, IfSome, OnOk, IsSome};
ghost use Rattle.std.specs.FinMap.{get};
ghost use Rattle.s3_model.specs.Counts.{HasCause};

use crate::content::Content;
use crate::wire::Failed;
use s3_model::{Text, Texts};
use std::alloc::Global;

/// What stands at a path. `size` is in bytes, `micros` in whole microseconds since 1970, cut down.
#[derive(Clone, Copy, Debug, PartialEq, Eq)]
pub enum Shape {
    Absent,
    File { size: u64, micros: u64 },
    Folder,
    Other,
}

/// Why a call on files did not succeed. In `Blocked`, the first `length` bytes of the destination name what is in the
/// way.
#[derive(Clone, Copy, Debug, PartialEq, Eq)]
pub enum FileFault {
    Failed,
    Blocked { length: u32 },
    Memory,
}

/// The names in a folder, in any order, and how many more there are that are no text.
#[derive(Drop)]
pub struct Names {
    pub names: Texts,
    pub unnamed: u64,
}

/// A temporary file, which stands beside its destination until it takes its place.
#[derive(Drop)]
pub struct Temp {
    pub path: Text,
}

/// One call on files with its answer; of names only why there are none. `at` and `room` are in bytes, `micros` is in
/// microseconds since 1970.
#[derive(Drop)]
pub enum FileNote {
    Kind {
        path: Text,
        answer: Result<Shape, Failed>,
    },
    ReadAt {
        path: Text,
        at: u64,
        room: usize,
        answer: Result<usize, Failed>,
    },
    Names {
        folder: Text,
        fault: Option<FileFault>,
    },
    MakeTemp {
        dest: Text,
        answer: Result<Text, FileFault>,
    },
    WriteAt {
        temp: Text,
        at: u64,
        bytes: Content,
        answer: Result<(), Failed>,
    },
    Rename {
        temp: Text,
        dest: Text,
        answer: Result<(), FileFault>,
    },
    DropTemp {
        temp: Text,
        answer: Result<(), Failed>,
    },
    Remove {
        path: Text,
        answer: Result<(), Failed>,
    },
    Stamp {
        path: Text,
        micros: u64,
        answer: Result<(), Failed>,
    },
}

/// The local files.
pub trait Files {
    ghost use Rattle.s3_outside.specs.Seen.{IsSeenAfter};
    ghost use Rattle.s3_outside.specs.Files.{SeenFiles, shape_at, asked_kind, asked_bytes, Reads};
    ghost use Rattle.s3_outside.specs.FileCalls.{
      HasObstacle,
      HasRisen,
      IsBlocked,
      IsMade,
      IsTempPath,
      NamesFront,
      answer_of,
      asked_names,
      path_of,
      unnamed_in,
    };
    ghost use Rattle.local_files.specs.Names.{AreNames};
    ghost use Rattle.local_files.specs.Changes.{IsFree};

    /// The files and the calls so far, or None where they are not seen.
    ghost seen: { Self → Option SeenFiles };

    /// How often a call failed. The count stops at 2^64 - 1.
    ghost faults: { Self → ℕ };

    /// What stands at a path.
    fn kind(&mut self, path: &str) -> Result<Shape, Failed>
        ensures shape { IfSome (seen self.old) (λ files. IfOk result (λ shape. shape ≡ shape_at files.store path.now)) }
        ensures calls { IsSeenAfter (asked_kind path.now result) (seen self.old) (seen self.new) (faults self.old)
            (faults self.new) }
        ensures cause { HasCause (faults self.old) (faults self.new) result };

    /// Reads from place `at` of a file to the front of `into`, and answers how many bytes came: none only where `into`
    /// is empty or the file ends at `at` or before.
    fn read_at(&mut self, path: &str, at: u64, into: &mut [u8]) -> Result<usize, Failed>
        ensures bound { IfOk result (λ count. count ≤ length into.new) }
        ensures length { length into.new ≡ length into.old }
        ensures bytes { IfSome (seen self.old) (λ files. IfOk result (Reads files.store path.now at into.new)) }
        ensures calls { IsSeenAfter (asked_bytes path.now at (length into.old) result) (seen self.old) (seen self.new)
            (faults self.old) (faults self.new) }
        ensures cause { HasCause (faults self.old) (faults self.new) result };

    /// The names of what stands in a folder. What is no folder is a fault. Never Blocked.
    fn names(&mut self, alloc: Global, folder: &str) -> Result<Names, FileFault>
        ensures folder { IfSome (seen self.old) (λ files. OnOk result
            (shape_at files.store folder.now ≡ Shape.Folder)) }
        ensures names { IfSome (seen self.old) (λ files. IfOk result (λ found.
            AreNames files.store folder.now found.names.items)) }
        ensures unnamed { IfSome (seen self.old) (λ files. IfOk result (λ found.
            found.unnamed ≡ unnamed_in files.store folder.now)) }
        ensures free { IfErr result (λ why. IsBlocked why → ⊥) }
        ensures calls { IsSeenAfter (asked_names folder.now result) (seen self.old) (seen self.new) (faults self.old)
            (faults self.new) }
        ensures later { faults self.old ≤ faults self.new }
        ensures failed { IfErr result (HasRisen (faults self.old) (faults self.new)) };

    /// Makes the folders of the destination that are missing, and an empty file beside it at a path where nothing
    /// stood. Blocked where a folder of the destination is a file, or the destination is a folder. A destination that
    /// is neither file nor folder is a fault.
    fn make_temp(&mut self, alloc: Global, dest: &str) -> Result<Temp, FileFault>
        ensures path { IfOk result (λ temp. IsTempPath dest.now temp.path) }
        ensures apart { IfOk result (λ temp. temp.path ≢ dest.now) }
        ensures absent { IfSome (seen self.old) (λ files. IfOk result (λ temp.
            shape_at files.store temp.path ≡ Shape.Absent)) }
        ensures front { IfErr result (NamesFront dest.now) }
        ensures way { IfSome (seen self.old) (λ files. IfErr result (HasObstacle files.store dest.now)) }
        ensures free { IfSome (seen self.old) (λ files. OnOk result (IsFree files.store dest.now)) }
        ensures kept { IfSome (seen self.old) (λ files. OnOk result (shape_at files.store dest.now ≢ Shape.Other)) }
        ensures calls { IsMade (FileNote.MakeTemp dest.now (path_of result)) (seen self.old) (seen self.new)
            (faults self.old) (faults self.new) }
        ensures later { faults self.old ≤ faults self.new }
        ensures failed { IfErr result (HasRisen (faults self.old) (faults self.new)) };

    /// Writes all bytes from place `at` on. After a fault the bytes of the temporary file are open.
    fn write_at(&mut self, temp: &Temp, at: u64, bytes: &[u8]) -> Result<(), Failed>
        ensures calls { IsMade (FileNote.WriteAt temp.now.path at bytes.now result) (seen self.old) (seen self.new)
            (faults self.old) (faults self.new) }
        ensures cause { HasCause (faults self.old) (faults self.new) result };

    /// Puts the temporary file in the place of its destination. Blocked as `make_temp`; never for memory.
    fn rename(&mut self, temp: Temp, dest: &str) -> Result<(), (Temp, FileFault)>
        ensures back { IfErr result (λ back. back.0 ≡ temp) }
        ensures memory { IfErr result (λ back. back.1 ≢ FileFault.Memory) }
        ensures front { IfErr result (λ back. NamesFront dest.now back.1) }
        ensures way { IfSome (seen self.old) (λ files. IfErr result (λ back.
            HasObstacle files.store dest.now back.1)) }
        ensures free { IfSome (seen self.old) (λ files. OnOk result (IsFree files.store dest.now)) }
        ensures kept { IfSome (seen self.old) (λ files. OnOk result (shape_at files.store dest.now ≢ Shape.Other)) }
        ensures calls { IsMade (FileNote.Rename temp.path dest.now (answer_of result)) (seen self.old)
            (seen self.new) (faults self.old) (faults self.new) }
        ensures later { faults self.old ≤ faults self.new }
        ensures failed { IfErr result (λ back. HasRisen (faults self.old) (faults self.new) back.1) };

    /// Takes the temporary file away.
    fn drop_temp(&mut self, temp: Temp) -> Result<(), Failed>
        ensures there { IfSome (seen self.old) (λ files. OnOk result (IsSome (get files.store.held temp.path))) }
        ensures calls { IsMade (FileNote.DropTemp temp.path result) (seen self.old) (seen self.new)
            (faults self.old) (faults self.new) }
        ensures cause { HasCause (faults self.old) (faults self.new) result };

    /// Removes a file; an absent one is a fault.
    fn remove(&mut self, path: &str) -> Result<(), Failed>
        ensures there { IfSome (seen self.old) (λ files. OnOk result (IsSome (get files.store.held path.now))) }
        ensures calls { IsMade (FileNote.Remove path.now result) (seen self.old) (seen self.new) (faults self.old)
            (faults self.new) }
        ensures cause { HasCause (faults self.old) (faults self.new) result };

    /// Sets the time of a file, in microseconds since 1970.
    fn stamp(&mut self, path: &str, micros: u64) -> Result<(), Failed>
        ensures calls { IsMade (FileNote.Stamp path.now micros result) (seen self.old) (seen self.new)
            (faults self.old) (faults self.new) }
        ensures cause { HasCause (faults self.old) (faults self.new) result };
}
