//! The engines of a monitor.

ghost use Rattle.std.specs.Prelude.{◌≡◌, [], length, IfOk};
ghost use Rattle.contract_status.specs.Open.{known_counts_of};
ghost use Rattle.contract_status.specs.Standing.{StandFor};

use crate::last_row::LastRow;
use booleanizer::Bz;
use contract_status::{Cursor, Outs};
use ft_engine::Ft;
use mltl_base::steps::Steps;
use mltl_base::{Report, Style};
use obs_verify::Checked;
use pt_boxes::Pt;
use std::alloc::{AllocError, Global};
use std::sync::ledger::Ledger;

/// A checked program, its Booleanizer, its engines, its outputs, and the number of rows that they
/// have taken.
#[derive(Drop)]
pub struct Running {
    pub checked: Checked,
    pub bz: Bz,
    pub ft: Ft,
    pub pt: Pt,
    pub outs: Outs,
    pub taken: u64,
}

/// Makes the engines and the outputs of a program, before the first row. It borrows the program, so
/// that no early return owns it.
fn engines(alloc: Global, checked: &Checked) -> Result<(Bz, Ft, Pt, Outs), AllocError>
    ensures numbers { IfOk result (λ made. length made.0 ≡ length checked.now.bz) }
    ensures stand { IfOk result (λ made. StandFor checked.now [] 0 made.1 made.2 made.3) }
    ensures drained { IfOk result (λ made. made.3 ≡ known_counts_of checked.now []) }
{
    let bz = Bz::make(alloc, checked)?;
    let ft = Ft::make(alloc, checked)?;
    let pt = Pt::make(alloc, checked)?;
    let outs = Outs::make(alloc, checked)?;
    Ok((bz, ft, pt, outs))
}

impl Running {
    ghost use Rattle.std.specs.Prelude.{◌≡◌, ◌+◌, ◌*◌, ◌<◌, ◌≤◌, ◌↔◌, List, [], length, take, IfOk, IsTrue};
    ghost use Rattle.mltl_base.specs.declared.limits.TheConstants.{MAX_MISSION};
    ghost use Rattle.mltl_base.specs.declared.report.Style.{Style as Form};
    ghost use Rattle.mltl_base.specs.Atoms.{Row};
    ghost use Rattle.mltl_base.specs.Programs.{IsFit};
    ghost use Rattle.booleanizer.specs.Evaluation.{numbers_on};
    ghost use Rattle.r2u2_monitor.specs.Running.{EnginesTakeRow, HasTaken, IsDrained, ResumesAt, WritesFront, YieldsMany, YieldsNext, open_by, outs_left};
    ghost use Rattle.r2u2_monitor.specs.Work.{running_work};

    /// Makes the engines of a program, before the first row. Only this call allocates.
    pub fn load(alloc: Global, checked: Checked) -> Result<Running, AllocError>
        ensures program { IfOk result (λ running. running.checked ≡ checked) }
        ensures taken { IfOk result (λ running. running.taken ≡ 0) }
        ensures numbers { IfOk result (λ running. length running.bz ≡ length checked.bz) }
        ensures stands { IfOk result (λ running. HasTaken running []) }
        ensures drained { IfOk result IsDrained }
    {
        let (bz, ft, pt, outs) = engines(alloc, &checked)?;
        Ok(Running {
            checked,
            bz,
            ft,
            pt,
            outs,
            taken: 0,
        })
    }

    /// Resets the engines to their state before the first row, in the memory that they have.
    pub fn reset(&mut self)
        requires some { (rows : List Row) × HasTaken self.old rows }
        ensures program { self.new.checked ≡ self.old.checked }
        ensures taken { self.new.taken ≡ 0 }
        ensures numbers { length self.new.bz ≡ length self.old.bz }
        ensures stands { HasTaken self.new [] }
        ensures drained { IsDrained self.new }
    {
        self.ft.reset(&self.checked);
        self.pt.reset(&self.checked);
        self.outs.reset();
        self.taken = 0;
    }

    /// Takes a row. Its steps are the instructions of the Booleanizer, and the reads and writes of
    /// queues and boxes. It doesn't allocate.
    pub fn take<L: Ledger>(&mut self, fields: &[i64], steps: &mut Steps<L>)
        requires some { (rows : List Row) × HasTaken self.old rows }
        requires drained { IsDrained self.old }
        requires early { self.old.taken < MAX_MISSION }
        requires numbers { length self.old.bz ≡ length self.old.checked.bz }
        requires fit { IsFit self.old.checked fields.now }
        ensures takes { EnginesTakeRow fields.now self.old self.new }
        ensures numbers { length self.new.bz ≡ length self.old.checked.bz }
        ensures counted { steps.new ≤ steps.old + running_work self.old.checked }
    {
        self.bz.row(&self.checked, fields, steps);
        self.ft.row(&self.checked, &self.bz, steps);
        self.pt.row(&self.checked, &self.bz, steps);
        self.taken += 1;
    }

    /// Takes the last row once more. The Booleanizer has its numbers, so no column is read.
    pub fn repeat<L: Ledger>(&mut self, last: &LastRow, steps: &mut Steps<L>)
        requires some { (rows : List Row) × HasTaken self.old rows }
        requires drained { IsDrained self.old }
        requires early { self.old.taken < MAX_MISSION }
        requires seen { self.old.bz ≡ numbers_on last.now.numbers self.old.checked.bz }
        requires fit { IsFit self.old.checked last.now.numbers }
        ensures takes { EnginesTakeRow last.now.numbers self.old self.new }
        ensures numbers { self.new.bz ≡ self.old.bz }
        ensures counted { steps.new ≤ steps.old + running_work self.old.checked }
    {
        self.ft.row(&self.checked, &self.bz, steps);
        self.pt.row(&self.checked, &self.bz, steps);
        self.taken += 1;
    }

    /// Returns the first report that is open, in a style. If none is open, returns `None`, and
    /// nothing changes. The search goes on at the cursor. It counts a step for itself and for each
    /// output that it looks at.
    #[inline(always)]
    pub fn next<L: Ledger>(
        &mut self,
        style: Style,
        cursor: &mut Cursor,
        steps: &mut Steps<L>,
    ) -> Option<Report>
        requires some { (rows : List Row) × HasTaken self.old rows }
        requires early { self.old.taken ≤ MAX_MISSION }
        requires cursor { ResumesAt self.old cursor.old }
        ensures yields { YieldsNext style result self.old self.new }
        ensures cursor { ResumesAt self.new cursor.new }
        ensures counted { steps.new + outs_left self.old cursor.new
            ≤ steps.old + outs_left self.old cursor.old + 2 }
    {
        self.outs.next_at(
            style,
            cursor,
            &self.checked,
            &self.ft,
            &self.pt,
            self.taken,
            steps,
        )
    }

    /// Writes as many of the first open reports, in a style, as there is room for to the front of a
    /// slice, and returns their number. If there was room for more, none is left.
    pub fn next_many<L: Ledger>(
        &mut self,
        style: Style,
        cursor: &mut Cursor,
        reports: &mut [Report],
        steps: &mut Steps<L>,
    ) -> usize
        requires some { (rows : List Row) × HasTaken self.old rows }
        requires early { self.old.taken ≤ MAX_MISSION }
        requires cursor { ResumesAt self.old cursor.old }
        ensures yields { YieldsMany style (take result reports.new) self.old self.new }
        ensures cursor { ResumesAt self.new cursor.new }
        ensures written { WritesFront result reports.old reports.new }
        ensures drained { result < length reports.old → IsDrained self.new }
        ensures counted { steps.new + outs_left self.old cursor.new
            ≤ steps.old + outs_left self.old cursor.old + 2 * (result + 1) }
    {
        for k in 0..reports.len() {
            match self.next(style, cursor, steps) {
                None => return k,
                Some(report) => reports[k] = report,
            }
        }
        reports.len()
    }

    /// Returns true if no report is open, in either style. The search goes on at the cursor. It
    /// counts a step for each output that it looks at.
    #[inline(always)]
    pub fn is_drained<L: Ledger>(&self, cursor: Cursor, steps: &mut Steps<L>) -> bool
        requires some { (rows : List Row) × HasTaken self.now rows }
        requires cursor { ResumesAt self.now cursor }
        ensures open { (style : Form) (rows : List Row) → HasTaken self.now rows
            → IsTrue result ↔ (open_by style self.now rows ≡ []) }
        ensures counted { steps.new ≤ steps.old + length self.now.checked.outs + 1 }
    {
        self.outs.drained_at(cursor, &self.checked, &self.ft, &self.pt, self.taken, steps)
    }
}
