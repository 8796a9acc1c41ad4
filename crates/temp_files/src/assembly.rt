//! A destination that is put together in a temporary file.

ghost use Rattle.std.specs.Prelude.{
  ◌≡◌,
  ◌≢◌,
  ◌≤◌,
  ◌+◌,
  ◌++◌,
  ℕ,
  List,
  [],
  ◌∷◌,
  Ok,
  None,
  IfOk,
  IfErr,
  IfSome,
  OnOk,
  OnErr,
  length,
};
ghost use Rattle.std.specs.FinMap.{get};
ghost use Rattle.s3_model.specs.Counts.{HasCause};
ghost use Rattle.local_files.specs.Changes.{IsFree};
ghost use Rattle.s3_outside.specs.FileCalls.{HasObstacle, HasRisen, IsMade, IsTempPath, NamesFront};
ghost use Rattle.temp_files.specs.Assembly.{
  AreInOrder,
  BothSeen,
  HasBytes,
  Holds,
  IsApart,
  IsUnmade,
  Range,
  SparesOthers,
  refusal_of,
};

use s3_model::{Part, Text};
use s3_outside::{Failed, FileFault, FileNote, Files, Temp};
use std::alloc::Global;
use std::marker::Model;

/// A file that is put together from ranges in any order, in a temporary file beside its destination.
#[derive(Drop)]
pub struct Assembly {
    temp: Temp,
    dest: Text,
    size: u64,
}

impl Model for Assembly {
    ghost use Rattle.temp_files.specs.Assembly.{Assembling};
    ghost use Rattle.std.specs.Prelude.{◌≢◌};

    ghost Value = { Assembling };

    ghost view = { λ a. record { temp = a.temp.path; dest = a.dest; size = a.size } };

    ghost invariant = { λ a. a.temp.path ≢ a.dest };
}

impl Assembly {
    /// Makes the temporary file of a destination that will have `size` bytes. The memory is taken before. Blocked where
    /// a folder of the destination is a file, or the destination is a folder.
    #[tactic(auto, using(crate::proofs::AssemblyLemmas::made_empty, crate::proofs::AssemblyLemmas::made_spares, crate::proofs::AssemblyLemmas::unmade_same))]
    pub fn make<F: Files>(
        alloc: Global,
        files: &mut F,
        dest: &str,
        size: u64,
    ) -> Result<Assembly, FileFault>
        ensures dest { IfOk result (λ made. made.dest ≡ dest.now) }
        ensures size { IfOk result (λ made. made.size ≡ size) }
        ensures temp { IfOk result (λ made. IsTempPath dest.now made.temp) }
        ensures apart { IfOk result (λ made. made.temp ≢ dest.now) }
        ensures empty { BothSeen (F.seen files.old) (F.seen files.new) (λ old new. IfOk result (λ made.
            Holds made [] new.store.held)) }
        ensures others { BothSeen (F.seen files.old) (F.seen files.new) (λ old new. IfOk result (λ made.
            SparesOthers made.temp old.store.held new.store.held)) }
        ensures same { BothSeen (F.seen files.old) (F.seen files.new) (λ old new. OnErr result
            (new.store.held ≡ old.store.held)) }
        ensures calls { IfOk result (λ made. IsMade (FileNote.MakeTemp dest.now (Ok made.temp)) (F.seen files.old)
            (F.seen files.new) (F.faults files.old) (F.faults files.new)) }
        ensures unmade { IfErr result (λ why. IsUnmade dest.now why (F.seen files.old) (F.seen files.new)
            (F.faults files.old) (F.faults files.new)) }
        ensures front { IfErr result (NamesFront dest.now) }
        ensures way { IfSome (F.seen files.old) (λ seen. IfErr result (HasObstacle seen.store dest.now)) }
        ensures free { IfSome (F.seen files.old) (λ seen. OnOk result (IsFree seen.store dest.now)) }
        ensures later { F.faults files.old ≤ F.faults files.new }
        ensures failed { IfErr result (HasRisen (F.faults files.old) (F.faults files.new)) }
    {
        let Ok(kept) = Text::of(alloc, dest) else {
            return Err(FileFault::Memory);
        };
        let temp = files.make_temp(alloc, dest)?;
        Ok(Assembly {
            temp,
            dest: kept,
            size,
        })
    }

    /// The path of the temporary file.
    pub fn temp(&self) -> &str
        ensures { result.now ≡ self.now.temp }
    {
        self.temp.path.as_str()
    }

    /// How many bytes the destination will have.
    pub fn size(&self) -> u64
        ensures { result ≡ self.now.size }
    {
        self.size
    }

    /// Writes a range at its place. After a fault the assembly can only be dropped.
    #[tactic(auto, using(crate::proofs::AssemblyLemmas::placed_seen, crate::proofs::AssemblyLemmas::placed_spares))]
    pub fn place<F: Files>(&mut self, files: &mut F, at: u64, part: &Part) -> Result<(), Failed>
        requires { at + length part.now.bytes.bytes ≤ self.old.size }
        ensures assembly { self.new ≡ self.old }
        ensures placed { BothSeen (F.seen files.old) (F.seen files.new) (λ old new. OnOk result
            ((ranges : List Range) → IsApart ranges at (length part.now.bytes.bytes)
            → Holds self.old ranges old.store.held
            → Holds self.old (ranges ++ (at, part.now.bytes.bytes) ∷ []) new.store.held)) }
        ensures others { BothSeen (F.seen files.old) (F.seen files.new) (λ old new.
            SparesOthers self.old.temp old.store.held new.store.held) }
        ensures calls { IsMade (FileNote.WriteAt self.old.temp at part.now.bytes.bytes result) (F.seen files.old)
            (F.seen files.new) (F.faults files.old) (F.faults files.new) }
        ensures cause { HasCause (F.faults files.old) (F.faults files.new) result }
    {
        files.write_at(&self.temp, at, part.bytes.as_slice())
    }

    /// Puts the file in the place of its destination, which then has the ranges in order of place; until then it is as
    /// it was. Blocked as `make`; never for memory.
    #[tactic(auto, using(crate::proofs::AssemblyLemmas::finished_seen, crate::proofs::AssemblyLemmas::finished_others, crate::proofs::AssemblyLemmas::finished_gone, crate::proofs::AssemblyLemmas::unfinished_same))]
    pub fn finish<F: Files>(self, files: &mut F) -> Result<(), (Assembly, FileFault)>
        ensures finished { BothSeen (F.seen files.old) (F.seen files.new) (λ old new. OnOk result
            ((ranges : List Range) (bytes : List ℕ) → Holds self ranges old.store.held
            → AreInOrder ranges self.size bytes → HasBytes new.store.held self.dest bytes)) }
        ensures others { BothSeen (F.seen files.old) (F.seen files.new) (λ old new. OnOk result
            ((path : List ℕ) → path ≢ self.temp → path ≢ self.dest
            → get new.store.held path ≡ get old.store.held path)) }
        ensures gone { BothSeen (F.seen files.old) (F.seen files.new) (λ old new. OnOk result
            (get new.store.held self.temp ≡ None)) }
        ensures same { BothSeen (F.seen files.old) (F.seen files.new) (λ old new. OnErr result
            (new.store.held ≡ old.store.held)) }
        ensures back { IfErr result (λ back. back.0 ≡ self) }
        ensures memory { IfErr result (λ back. back.1 ≢ FileFault.Memory) }
        ensures front { IfErr result (λ back. NamesFront self.dest back.1) }
        ensures way { IfSome (F.seen files.old) (λ seen. IfErr result (λ back.
            HasObstacle seen.store self.dest back.1)) }
        ensures free { IfSome (F.seen files.old) (λ seen. OnOk result (IsFree seen.store self.dest)) }
        ensures calls { IsMade (FileNote.Rename self.temp self.dest (refusal_of result)) (F.seen files.old)
            (F.seen files.new) (F.faults files.old) (F.faults files.new) }
        ensures later { F.faults files.old ≤ F.faults files.new }
        ensures failed { IfErr result (λ back. HasRisen (F.faults files.old) (F.faults files.new) back.1) }
    {
        match files.rename(self.temp, self.dest.as_str()) {
            Ok(()) => Ok(()),
            Err((temp, fault)) => {
                let back = Assembly {
                    temp,
                    dest: self.dest,
                    size: self.size,
                };
                Err((back, fault))
            }
        }
    }

    /// Takes the temporary file away. After a fault it may still be there.
    #[tactic(auto, using(crate::proofs::AssemblyLemmas::dropped_gone, crate::proofs::AssemblyLemmas::dropped_spares))]
    pub fn drop_it<F: Files>(self, files: &mut F) -> Result<(), Failed>
        ensures gone { BothSeen (F.seen files.old) (F.seen files.new) (λ old new. OnOk result
            (get new.store.held self.temp ≡ None)) }
        ensures others { BothSeen (F.seen files.old) (F.seen files.new) (λ old new.
            SparesOthers self.temp old.store.held new.store.held) }
        ensures calls { IsMade (FileNote.DropTemp self.temp result) (F.seen files.old) (F.seen files.new)
            (F.faults files.old) (F.faults files.new) }
        ensures cause { HasCause (F.faults files.old) (F.faults files.new) result }
    {
        files.drop_temp(self.temp)
    }
}
