//! The monitor.

use crate::last_row::LastRow;
use crate::row_buffer::row_buffer;
use crate::row_fault::RowFault;
use crate::running::Running;
use crate::unfit::unfit_column;
use arrayvec::ArrayVec;
use contract_status::{Cursor, line_of};
use mltl_base::limits::MAX_MISSION;
use mltl_base::steps::Steps;
use mltl_base::{Fixed, Report, Style};
use obs_verify::Checked;
use std::alloc::{AllocError, Global};
use std::marker::{Brand, Model};
use std::sync::ledger::{Blank, Ledger};
use trace_feed::{Readings, RowAnswer, row_fields_by};

/// A monitor of a checked program. It takes rows one by one, and returns the reports of each row
/// before it takes the next. `load` allocates all its memory. Contracts see its state.
#[derive(Drop)]
pub struct Monitor {
    running: Running,
    /// The row that was taken last, for contracts alone.
    last: LastRow,
    /// Room for a row that is read and isn't taken yet.
    read: Fixed<i64>,
    /// The readings of the columns.
    readings: Readings,
    /// The place from which the search for the next report of the last row goes on.
    cursor: Cursor,
}

impl Model for Monitor {
    ghost use Rattle.r2u2_monitor.specs.declared.state.State.{State as Shown};
    ghost use Rattle.r2u2_monitor.specs.contracts.state.State.{the_row};

    ghost Value = { Shown };

    ghost coded = { the_row.coded };

    ghost use Rattle.r2u2_monitor.specs.Kept.{IsKept, state_of};

    ghost view = { state_of };

    ghost invariant = { IsKept };
}

impl Monitor {
    ghost use Rattle.std.specs.Prelude.{◌≡◌, ◌+◌, ◌*◌, ◌^◌, ◌<◌, ◌≤◌, ◌↔◌, List, [], IfErr, IfOk, IsOk, IsTrue, MatchOption, OnErr, OnOk, drop, length, take};
    ghost use Rattle.mltl_base.specs.declared.limits.TheConstants.{MAX_MISSION, TIME_END};
    ghost use Rattle.arrayvec.specs.ArrayVec.{array_vec_len};
    ghost use Rattle.mltl_base.specs.declared.report.Style.{Style as Form};
    ghost use Rattle.mltl_base.specs.declared.report.Style.TheVariants.{Each, Runs};
    ghost use Rattle.mltl_base.specs.Atoms.{Row};
    ghost use Rattle.mltl_base.specs.Lines.{line};
    ghost use Rattle.mltl_base.specs.Programs.{IsFit, output_names};
    ghost use Rattle.r2u2_monitor.specs.Bytes.{bytes_of, monitor_bytes};
    ghost use Rattle.r2u2_monitor.specs.Bursts.{OpensFew};
    ghost use Rattle.r2u2_monitor.specs.Work.{row_work, running_work, taking_work, telling_work};
    ghost use Rattle.r2u2_monitor.specs.Stepping.{ReturnsMany, StepsOver};
    ghost use Rattle.trace_feed.specs.Rows.{IsMeaningOf, line_meaning};
    ghost use Rattle.r2u2_monitor.specs.Monitoring.{KeepsKnown, ReturnsNext, IsDrained, IsSame, Stands, TakesRow, last_of, open_in, program_of, read_of, taken_by};
    ghost use Rattle.r2u2_monitor.specs.RowFaults.{IsReady, IsRowCause, IsUnfitAt};

    /// Makes a monitor that has taken no rows. It allocates all memory, in blocks of as many bytes
    /// as the program predicts.
    pub fn load(alloc: Global, checked: Checked) -> Result<Monitor, AllocError>
        ensures program { IfOk result (λ monitor. program_of monitor ≡ checked) }
        ensures taken { IfOk result (λ monitor. taken_by monitor ≡ 0) }
        ensures stands { IfOk result (λ monitor. Stands monitor []) }
        ensures drained { IfOk result IsDrained }
        ensures bytes { IfOk result (λ monitor. bytes_of monitor ≡ monitor_bytes checked) }
    {
        let (read, readings) = row_buffer(alloc, &checked)?;
        let last = LastRow::of(read.as_slice());
        let running = Running::load(alloc, checked)?;
        Ok(Monitor {
            running,
            last,
            read,
            readings,
            cursor: Cursor::start(),
        })
    }

    /// Resets the monitor to its state before the first row; it can take up to `MAX_MISSION` rows
    /// again. It neither allocates nor frees.
    pub fn reset(&mut self)
        ensures program { program_of self.new ≡ program_of self.old }
        ensures taken { taken_by self.new ≡ 0 }
        ensures stands { Stands self.new [] }
        ensures drained { IsDrained self.new }
    {
        self.running.reset();
        self.cursor = Cursor::start();
    }

    /// Returns the program.
    pub fn checked(&self) -> &Checked
        ensures program { result.now ≡ program_of self.now }
    {
        &self.running.checked
    }

    /// Returns the number of rows that the monitor has taken, at most `MAX_MISSION`.
    pub fn rows_taken(&self) -> u64
        ensures taken { result ≡ taken_by self.now }
        ensures early { result ≤ MAX_MISSION }
    {
        self.running.taken
    }

    /// Takes the next row, with one number for each column, if it is valid and the monitor is ready
    /// for it. Otherwise nothing changes, and the first cause is returned. It doesn't allocate.
    #[inline(always)]
    pub fn take(&mut self, row: &[i64]) -> Result<(), RowFault>
        ensures takes { OnOk result (TakesRow row.now self.old self.new) }
        ensures few { OnOk result (OpensFew row.now self.old self.new) }
        ensures ready { IsOk result ↔ IsReady self.old row.now }
        ensures cause { IfErr result (λ fault. IsRowCause fault self.old row.now) }
        ensures same { OnErr result (self.new ≡ self.old) }
    {
        self.take_alone::<Brand>(row, Blank::new(1))
    }

    /// Takes a row with a separate counter.
    #[inline(always)]
    fn take_alone<L: Ledger>(&mut self, row: &[i64], blank: Blank) -> Result<(), RowFault>
        requires name { blank.name ≡ L.name }
        requires parts { blank.parts ≡ L.parts }
        requires some_parts { 0 < blank.parts }
        ensures takes { OnOk result (TakesRow row.now self.old self.new) }
        ensures few { OnOk result (OpensFew row.now self.old self.new) }
        ensures ready { IsOk result ↔ IsReady self.old row.now }
        ensures cause { IfErr result (λ fault. IsRowCause fault self.old row.now) }
        ensures same { OnErr result (self.new ≡ self.old) }
    {
        self.try_take(row, &mut Steps::<L>::start(blank))
    }

    /// Takes the next row as `take` does. It counts a step for each output that it checks for
    /// reports, for each instruction of the Booleanizer and for each column, and the steps of
    /// `advance`.
    #[inline(always)]
    #[tactic(auto, using(crate::proofs::Fitting::unready))]
    pub fn try_take<L: Ledger>(&mut self, row: &[i64], steps: &mut Steps<L>) -> Result<(), RowFault>
        ensures takes { OnOk result (TakesRow row.now self.old self.new) }
        ensures few { OnOk result (OpensFew row.now self.old self.new) }
        ensures ready { IsOk result ↔ IsReady self.old row.now }
        ensures cause { IfErr result (λ fault. IsRowCause fault self.old row.now) }
        ensures same { OnErr result (self.new ≡ self.old) }
        ensures represents { OnOk result ((rows : List Row) × Stands self.old rows) }
        ensures counted { steps.new ≤ steps.old + taking_work (program_of self.old) }
    {
        if !self.drained_in(steps) {
            return Err(RowFault::ReportsLeft);
        }
        if let Some(column) = self.unfit_column(row, steps) {
            return Err(RowFault::NotARow(column));
        }
        if self.rows_taken() >= MAX_MISSION {
            return Err(RowFault::TooManyRows);
        }
        self.advance(row, steps);
        Ok(())
    }

    /// Takes the next row as `take` does, writes as many of its reports, in a style, as there is
    /// room for to the front of a slice, and returns their number. If there was room for more, none
    /// is left. The check, the row and its reports take no more steps than `row_work` returns.
    pub fn step<L: Ledger>(
        &mut self,
        row: &[i64],
        style: Style,
        reports: &mut [Report],
        steps: &mut Steps<L>,
    ) -> Result<usize, RowFault>
        ensures steps_over { IfOk result (λ count.
            StepsOver style row.now (take count reports.new) self.old self.new) }
        ensures rest { IfOk result (λ count. drop count reports.new ≡ drop count reports.old) }
        ensures drained { IfOk result (λ count. count < length reports.old → IsDrained self.new) }
        ensures ready { IsOk result ↔ IsReady self.old row.now }
        ensures cause { IfErr result (λ fault. IsRowCause fault self.old row.now) }
        ensures same { OnErr result (self.new ≡ self.old) }
        ensures unwritten { OnErr result (reports.new ≡ reports.old) }
        ensures counted { steps.new ≤ steps.old + row_work (program_of self.old) }
    {
        match self.try_take(row, steps) {
            Err(fault) => Err(fault),
            Ok(()) => Ok(self.next_many(style, reports, steps)),
        }
    }

    /// Returns the first column from which the numbers aren't a row of the program, or `None` if
    /// they are a row.
    fn unfit_column<L: Ledger>(&self, row: &[i64], steps: &mut Steps<L>) -> Option<u32>
        ensures unfit { MatchOption result (IsFit (program_of self.now) row.now)
            (λ column. IsUnfitAt (program_of self.now) row.now column) }
        ensures counted { steps.new
            ≤ steps.old + length (program_of self.now).bz + (program_of self.now).width }
        ensures counted_fit { IsFit (program_of self.now) row.now
            → steps.new ≤ steps.old + length (program_of self.now).bz }
    {
        unfit_column(&self.running.checked, &self.readings, row, steps)
    }

    /// Takes the next row, of one number for each column. It looks at the columns that the program
    /// reads alone, and copies none. Its steps are the instructions of the Booleanizer, and the
    /// reads and writes of queues and boxes. It brings at most `most_reports`, and the words that
    /// were known are a prefix of the words that are known after it.
    pub fn advance<L: Ledger>(&mut self, fields: &[i64], steps: &mut Steps<L>)
        requires drained { IsDrained self.old }
        requires early { taken_by self.old < MAX_MISSION }
        requires fit { IsFit (program_of self.old) fields.now }
        ensures takes { TakesRow fields.now self.old self.new }
        ensures few { OpensFew fields.now self.old self.new }
        ensures known { KeepsKnown fields.now self.old self.new }
        ensures counted { steps.new ≤ steps.old + running_work (program_of self.old) }
    {
        self.running.take(fields, steps);
        self.last = LastRow::of(fields);
        self.cursor = Cursor::start();
    }

    /// Reads the row of a line, if the line has one, and keeps it aside. Nothing else changes.
    pub fn read_line(&mut self, line: &[u8]) -> RowAnswer
        ensures told { IsMeaningOf result (read_of self.new)
            (line_meaning (program_of self.old) line.now) }
        ensures fit { result ≡ RowAnswer.Good → IsFit (program_of self.old) (read_of self.new) }
        ensures same { IsSame self.old self.new }
    {
        row_fields_by(
            line,
            &self.running.checked,
            &self.readings,
            self.read.as_mut_slice(),
        )
    }

    /// Takes the last row once more, with the numbers that the Booleanizer has of it. A row that
    /// was read stays.
    pub fn repeat_last<L: Ledger>(&mut self, steps: &mut Steps<L>)
        requires begun { 0 < taken_by self.old }
        requires drained { IsDrained self.old }
        requires early { taken_by self.old < MAX_MISSION }
        ensures takes { TakesRow (last_of self.old) self.old self.new }
        ensures read { read_of self.new ≡ read_of self.old }
        ensures counted { steps.new ≤ steps.old + running_work (program_of self.old) }
    {
        self.running.repeat(&self.last, steps);
        self.cursor = Cursor::start();
    }

    /// Takes the row that was read.
    pub fn take_read<L: Ledger>(&mut self, steps: &mut Steps<L>)
        requires fit { IsFit (program_of self.old) (read_of self.old) }
        requires drained { IsDrained self.old }
        requires early { taken_by self.old < MAX_MISSION }
        ensures takes { TakesRow (read_of self.old) self.old self.new }
        ensures counted { steps.new ≤ steps.old + running_work (program_of self.old) }
    {
        let row = self.read.as_slice();
        self.running.take(row, steps);
        self.last = LastRow::of(row);
        self.cursor = Cursor::start();
    }

    /// Returns the next report of the last row, in a style. If none is left, returns `None`, and
    /// nothing changes.
    #[inline(always)]
    pub fn next(&mut self, style: Style) -> Option<Report>
        ensures { ReturnsNext style result self.old self.new }
    {
        self.next_alone::<Brand>(style, Blank::new(1))
    }

    /// Returns the next report, with a separate counter.
    #[inline(always)]
    fn next_alone<L: Ledger>(&mut self, style: Style, blank: Blank) -> Option<Report>
        requires name { blank.name ≡ L.name }
        requires parts { blank.parts ≡ L.parts }
        requires some_parts { 0 < blank.parts }
        ensures { ReturnsNext style result self.old self.new }
    {
        let mut steps = Steps::<L>::start(blank);
        self.running.next(style, &mut self.cursor, &mut steps)
    }

    /// Writes as many of the next reports of the last row, in a style, as there is room for to the
    /// front of a slice, and returns their number. If there was room for more, none is left. It
    /// counts a step for each output that it looks at, and two for each report.
    pub fn next_many<L: Ledger>(
        &mut self,
        style: Style,
        reports: &mut [Report],
        steps: &mut Steps<L>,
    ) -> usize
        ensures returns { ReturnsMany style (take result reports.new) self.old self.new }
        ensures rest { drop result reports.new ≡ drop result reports.old }
        ensures within { result ≤ length reports.old }
        ensures drained { result < length reports.old → IsDrained self.new }
        ensures counted { steps.new ≤ steps.old + telling_work (program_of self.old) result }
    {
        self.running
            .next_many(style, &mut self.cursor, reports, steps)
    }

    /// Returns the next report of the last row, one for each newly known time. If none is left,
    /// returns `None`, and nothing changes.
    pub fn next_report(&mut self) -> Option<Report>
        ensures { ReturnsNext Each result self.old self.new }
    {
        self.next(Style::Each)
    }

    /// Returns the next report of the last row, one for each longest stretch of newly known times
    /// with one word, with its last time. If none is left, returns `None`, and nothing changes.
    pub fn next_run(&mut self) -> Option<Report>
        ensures { ReturnsNext Runs result self.old self.new }
    {
        self.next(Style::Runs)
    }

    /// Returns the line of a report that was returned: the name of its output, its time and its
    /// word, with a newline.
    pub fn line_of(&self, report: &Report) -> ArrayVec<u8, 128>
        requires exists { report.now.out < length (program_of self.now).outs }
        requires early { report.now.time < TIME_END }
        ensures line { result.items ≡ line (output_names (program_of self.now)) report.now }
        ensures short { array_vec_len result ≤ 88 }
    {
        line_of(report, self.checked())
    }

    /// Returns true if all reports were returned.
    pub fn is_drained(&self) -> bool
        ensures drained { IsTrue result ↔ IsDrained self.now }
        ensures open { (style : Form) (rows : List Row) → Stands self.now rows
            → IsTrue result ↔ (open_in style self.now rows ≡ []) }
    {
        self.drained_alone::<Brand>(Blank::new(1))
    }

    /// Returns true if all reports were returned, with a separate counter.
    fn drained_alone<L: Ledger>(&self, blank: Blank) -> bool
        requires name { blank.name ≡ L.name }
        requires parts { blank.parts ≡ L.parts }
        requires some_parts { 0 < blank.parts }
        ensures drained { IsTrue result ↔ IsDrained self.now }
        ensures open { (style : Form) (rows : List Row) → Stands self.now rows
            → IsTrue result ↔ (open_in style self.now rows ≡ []) }
    {
        self.drained_in(&mut Steps::<L>::start(blank))
    }

    /// Returns true if all reports were returned. It counts a step for each output that it looks
    /// at. The monitor represents some rows at any time.
    #[inline(always)]
    fn drained_in<L: Ledger>(&self, steps: &mut Steps<L>) -> bool
        ensures drained { IsTrue result ↔ IsDrained self.now }
        ensures open { (style : Form) (rows : List Row) → Stands self.now rows
            → IsTrue result ↔ (open_in style self.now rows ≡ []) }
        ensures represents { (rows : List Row) × Stands self.now rows }
        ensures counted { steps.new ≤ steps.old + length (program_of self.now).outs + 1 }
    {
        self.running.is_drained(self.cursor, steps)
    }
}
