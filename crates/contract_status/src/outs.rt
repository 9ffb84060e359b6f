//! The outputs of a program and their next times.

use crate::cursor::Cursor;
use crate::engines::Engines;
use crate::first_report::tell_first;
use ft_engine::Ft;
use mltl_base::steps::Steps;
use mltl_base::{Fixed, Report, Style};
use obs_verify::Checked;
use pt_boxes::Pt;
use std::alloc::{AllocError, Global};
use std::marker::Model;
use std::sync::ledger::Ledger;

/// The outputs of a program: the next time of each, counted in rows from 0. Contracts see these
/// times in order.
#[derive(Drop)]
pub struct Outs {
    times: Fixed<u64>,
}

impl Model for Outs {
    ghost use Rattle.std.specs.Prelude.{List, ℕ};

    ghost Value = { List ℕ };

    ghost view = { λ outs. outs.times };
}

impl Outs {
    ghost use Rattle.std.specs.Prelude.{◌≡◌, ◌+◌, ◌≤◌, ◌↔◌, List, [], length, replicate, IfOk, IfSome, IsTrue};
    ghost use Rattle.mltl_base.specs.declared.limits.TheConstants.{MAX_MISSION};
    ghost use Rattle.mltl_base.specs.declared.report.Style.{Style as Form};
    ghost use Rattle.mltl_base.specs.declared.report.Style.TheVariants.{Each as each, Runs as runs};
    ghost use Rattle.mltl_base.specs.Atoms.{Row};
    ghost use Rattle.contract_status.specs.Cursors.{FitsCursor, KeepsStretch, MovesOn, outs_after};
    ghost use Rattle.contract_status.specs.Open.{ArePlaced, known_counts_of, open_of};
    ghost use Rattle.contract_status.specs.Standing.{GivesNext, StandFor};

    /// Makes the outputs of a program before the first row, with 0 for each next time. Allocates
    /// all its memory.
    pub fn make(alloc: Global, checked: &Checked) -> Result<Outs, AllocError>
        ensures start { IfOk result (λ outs. outs ≡ replicate (length checked.now.outs) 0) }
        ensures drained { IfOk result (λ outs. outs ≡ known_counts_of checked.now []) }
        ensures placed { IfOk result (ArePlaced checked.now []) }
    {
        let times = Fixed::filled(alloc, 0, checked.program().outs.len())?;
        Ok(Outs { times })
    }

    /// Resets all next times to 0, as before the first row. It neither allocates nor frees.
    pub fn reset(&mut self)
        ensures start { self.new ≡ replicate (length self.old) 0 }
    {
        self.times.as_mut_slice().fill(0);
    }

    /// Returns the first report that is open after `n` rows, one for each time, or `None` if none
    /// is open.
    pub fn next<L: Ledger>(
        &mut self,
        checked: &Checked,
        ft: &Ft,
        pt: &Pt,
        n: u64,
        steps: &mut Steps<L>,
    ) -> Option<Report>
        requires early { n ≤ MAX_MISSION }
        requires stands { (rows : List Row) × StandFor checked.now rows n ft.now pt.now self.old }
        ensures gives { GivesNext each checked.now n ft.now pt.now result self.old self.new }
        ensures counted { steps.new ≤ steps.old + length self.old + 2 }
    {
        self.next_at(Style::Each, &mut Cursor::start(), checked, ft, pt, n, steps)
    }

    /// Returns the first report that is open after `n` rows, one for each longest stretch of one
    /// word, or `None` if none is open.
    pub fn next_run<L: Ledger>(
        &mut self,
        checked: &Checked,
        ft: &Ft,
        pt: &Pt,
        n: u64,
        steps: &mut Steps<L>,
    ) -> Option<Report>
        requires early { n ≤ MAX_MISSION }
        requires stands { (rows : List Row) × StandFor checked.now rows n ft.now pt.now self.old }
        ensures gives { GivesNext runs checked.now n ft.now pt.now result self.old self.new }
        ensures counted { steps.new ≤ steps.old + length self.old + 2 }
    {
        self.next_at(Style::Runs, &mut Cursor::start(), checked, ft, pt, n, steps)
    }

    /// Returns the first report that is open after `n` rows, in a style. The search goes on at the
    /// cursor of these rows. It counts a step for itself and for each output that it looks at. The
    /// next search looks at the last of them again, and at none before it.
    #[inline(always)]
    pub fn next_at<L: Ledger>(
        &mut self,
        style: Style,
        cursor: &mut Cursor,
        checked: &Checked,
        ft: &Ft,
        pt: &Pt,
        n: u64,
        steps: &mut Steps<L>,
    ) -> Option<Report>
        requires early { n ≤ MAX_MISSION }
        requires stands { (rows : List Row) × StandFor checked.now rows n ft.now pt.now self.old }
        requires cursor { FitsCursor checked.now n ft.now pt.now self.old cursor.old }
        ensures gives { GivesNext style checked.now n ft.now pt.now result self.old self.new }
        ensures cursor { FitsCursor checked.now n ft.now pt.now self.new cursor.new }
        ensures moves { MovesOn n (length self.old) result cursor.old cursor.new }
        ensures keeps { (rows : List Row) → StandFor checked.now rows n ft.now pt.now self.old
            → IfSome result (λ report. KeepsStretch checked.now rows report cursor.new) }
        ensures counted { steps.new + outs_after self.old cursor.new
            ≤ steps.old + outs_after self.old cursor.old + 2 }
    {
        let engines = Engines { ft, pt, rows: n };
        let times = self.times.as_mut_slice();
        tell_first(style, checked, &engines, times, cursor, steps)
    }

    /// Returns true if no report is open after `n` rows, in either style.
    pub fn drained<L: Ledger>(
        &self,
        checked: &Checked,
        ft: &Ft,
        pt: &Pt,
        n: u64,
        steps: &mut Steps<L>,
    ) -> bool
        requires stands { (rows : List Row) × StandFor checked.now rows n ft.now pt.now self.now }
        ensures drained { (style : Form) (rows : List Row)
            → StandFor checked.now rows n ft.now pt.now self.now
            → IsTrue result ↔ (open_of style checked.now rows self.now ≡ []) }
        ensures counted { steps.new ≤ steps.old + length self.now + 1 }
    {
        self.drained_at(Cursor::start(), checked, ft, pt, n, steps)
    }

    /// Returns true if no report is open after `n` rows, in either style. It looks at no output
    /// before the cursor of these rows, so at none if `next_at` returned `None`. It counts a step
    /// for each output that it looks at.
    #[inline(always)]
    pub fn drained_at<L: Ledger>(
        &self,
        cursor: Cursor,
        checked: &Checked,
        ft: &Ft,
        pt: &Pt,
        n: u64,
        steps: &mut Steps<L>,
    ) -> bool
        requires stands { (rows : List Row) × StandFor checked.now rows n ft.now pt.now self.now }
        requires cursor { FitsCursor checked.now n ft.now pt.now self.now cursor }
        ensures drained { (style : Form) (rows : List Row)
            → StandFor checked.now rows n ft.now pt.now self.now
            → IsTrue result ↔ (open_of style checked.now rows self.now ≡ []) }
        ensures counted { steps.new ≤ steps.old + outs_after self.now cursor + 1 }
    {
        let engines = Engines { ft, pt, rows: n };
        let open = engines.next_open(checked.program(), self.times.as_slice(), cursor, steps);
        open.is_none()
    }
}
