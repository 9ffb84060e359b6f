//! The place from which the search for open reports goes on, after the same rows.

use crate::engines::Stretch;

/// A place in the outputs: the outputs before `out` were all reported, and `stretch`, if there is
/// one, is the longest stretch of this output from its next time on.
#[derive(Clone, Copy)]
pub struct Cursor {
    pub out: usize,
    pub stretch: Option<Stretch>,
}

impl Cursor {
    ghost use Rattle.std.specs.Prelude.{◌≡◌, ◌+◌, ◌^◌, ◌<◌, ◌⊎◌, ℕ, List, None, Some};
    ghost use Rattle.mltl_base.specs.declared.program.Program.{Program};
    ghost use Rattle.mltl_base.specs.Atoms.{Row};
    ghost use Rattle.contract_status.specs.declared.engines.Stretch.{Stretch as Found};
    ghost use Rattle.contract_status.specs.Cursors.{IsCursor};

    /// Makes a cursor at the first output.
    pub fn start() -> Cursor
        ensures { (program : Program) (rows : List Row) (next_times : List ℕ)
            → IsCursor program rows next_times result }
    {
        Cursor {
            out: 0,
            stretch: None,
        }
    }

    /// Continues the search after a report of an output up to `time`, after `rows` rows: at the
    /// next output if no further time can be known, else at this one, with the rest of the stretch.
    pub fn move_after(&mut self, out: usize, time: u64, stretch: Stretch, rows: u64)
        requires within { out + 1 < 2 ^ 64 }
        requires early { time < rows }
        ensures next_time { (self.new.out ≡ out) ⊎ ((self.new.out ≡ out + 1) × (time + 1 ≡ rows)) }
        ensures here { time + 1 < rows → self.new.out ≡ out }
        ensures next { time + 1 ≡ rows → self.new.out ≡ out + 1 }
        ensures kept { (left : Found) → self.new.stretch ≡ Some left
            → (self.new.out ≡ out) × (left ≡ stretch) × (time < left.last) }
        ensures keeps { time + 1 < rows → time < stretch.last → self.new.stretch ≡ Some stretch }
    {
        if time + 1 == rows {
            self.out = out + 1;
            self.forget();
        } else if time < stretch.last {
            self.out = out;
            self.stretch = Some(stretch);
        } else {
            self.out = out;
            self.forget();
        }
    }

    /// Drops the stretch. If there is none, as is usual, nothing is written.
    #[inline(always)]
    fn forget(&mut self)
        ensures out { self.new.out ≡ self.old.out }
        ensures none { self.new.stretch ≡ None }
    {
        if self.stretch.is_some() {
            self.stretch = None;
        }
    }
}
