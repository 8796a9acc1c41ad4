//! The parts of an upload by their numbers.

ghost use Rattle.std.specs.Prelude.{◌≡◌, OnOk, OnErr};
ghost use Rattle.std.specs.Option.{option_copied};
ghost use Rattle.std.specs.FinMap.{get, insert, empty};

use crate::object::MemPart;
use s3_model::OutOfMemory;
use std::alloc::Global;
use std::collections::BTreeMap;
use std::marker::Model;

/// The parts of an upload by their numbers. Contracts see the finite map.
#[derive(Drop)]
pub struct PartMap {
    inner: BTreeMap<u64, MemPart>,
}

impl Model for PartMap {
    ghost use Rattle.std.specs.Ordering.{nat_cmp};
    ghost use Rattle.std.specs.FinMap.{FinMap};
    ghost use Rattle.s3_service.specs.ServiceState.{StoredPart};
    ghost use Rattle.object_table.specs.Codes.{parts_code};
    ghost use Rattle.object_table.specs.Parts.{part_map};

    ghost Value = { FinMap nat_cmp StoredPart };

    ghost coded = { parts_code };

    ghost view = { λ m. part_map m.inner.entries };
}

impl PartMap {
    /// No parts, which takes no memory.
    pub fn make(alloc: Global) -> PartMap
        ensures { result ≡ empty }
    {
        PartMap {
            inner: BTreeMap::new(alloc),
        }
    }

    pub fn get(&self, number: u64) -> Option<&MemPart>
        ensures { option_copied result ≡ get self.now number }
    {
        self.inner.get(&number)
    }

    /// Puts a part at a number, in the place of one that is there.
    pub fn insert(&mut self, number: u64, part: MemPart) -> Result<(), OutOfMemory>
        ensures put { OnOk result (self.new ≡ insert self.old number part) }
        ensures same { OnErr result (self.new ≡ self.old) }
    {
        match self.inner.insert(number, part) {
            Ok(_) => Ok(()),
            Err(_) => Err(OutOfMemory),
        }
    }
}
