//! Cells by which jobs are cancelled.

ghost use Rattle.std.specs.Prelude.{◌≡◌, None, IfOk, OnErr};
ghost use Rattle.jobs.specs.Cells.{Agree, Hears, Keeps};

use once_cell::race::{Note, OnceBox};
use s3_model::{OutOfMemory, Reason};
use std::alloc::Global;
use std::marker::Model;
use std::sync::Arc;

/// One holder of a cell that is given a reason once, by which the jobs that hold a share of it are cancelled.
///
/// Contracts see which cell it is, and the reason as far as this holder knows it. The first reason stays, so all
/// holders that know one know the same.
#[derive(Drop)]
pub struct CancelCell {
    first: Arc<OnceBox<Reason>, Global>,
    note: Note<Reason>,
}

impl Model for CancelCell {
    ghost use Rattle.std.specs.Prelude.{◌≡◌};
    ghost use Rattle.std.specs.Arc.{arc_value};
    ghost use Rattle.once_cell.specs.Once.{cell_name};
    ghost use Rattle.jobs.specs.Holders.{Holder};

    ghost Value = { Holder };

    ghost view = { λ c. record { cell = c.note.cell; known = c.note.known } };

    ghost invariant = { λ c. c.note.cell ≡ cell_name (arc_value c.first) };
}

impl CancelCell {
    /// A cell without a reason.
    pub fn make(alloc: Global) -> Result<CancelCell, OutOfMemory>
        ensures { IfOk result (λ made. made.known ≡ None) }
    {
        let cell = OnceBox::new(alloc);
        let note = cell.note();
        let first = Arc::new(alloc, cell)?;
        Ok(CancelCell { first, note })
    }

    /// One more holder of the same cell, who knows what this one knows. `OutOfMemory` comes where no more holders can
    /// be counted.
    pub fn share(&mut self) -> Result<CancelCell, OutOfMemory>
        ensures same { self.new ≡ self.old }
        ensures shared { IfOk result (λ share. share ≡ self.old) }
    {
        let first = Arc::try_clone(&self.first)?;
        Ok(CancelCell {
            first,
            note: self.note.again(),
        })
    }

    /// Gives the cell this reason, unless it has one. After want of memory it is as before.
    pub fn cancel(&mut self, alloc: Global, reason: Reason) -> Result<(), OutOfMemory>
        ensures kept { OnErr result (self.new ≡ self.old) }
        ensures known { IfOk result (λ _. Keeps self.old self.new) }
    {
        let value = Box::new(alloc, reason)?;
        let _first = self.first.set_as(value, &mut self.note);
        Ok(())
    }

    /// The reason of the cell, or None where it has none yet and this holder knows none.
    pub fn reason(&mut self) -> Option<Reason>
        ensures { Hears self.old self.new result }
    {
        match self.first.get_as(&mut self.note) {
            Some(reason) => Some(*reason),
            None => None,
        }
    }

    /// Shows that two holders of one cell that know a reason know the same one.
    pub fn compare(&mut self, other: &mut CancelCell)
        requires { other.old.cell ≡ self.old.cell }
        ensures same { self.new ≡ self.old }
        ensures other { other.new ≡ other.old }
        ensures agree { Agree self.old other.old }
    {
        self.note.compare(other.note.again());
    }
}
