//! The loop over a trace.

ghost use Rattle.std.specs.Prelude.{◌≡◌, ◌≤◌, ◌<◌, ◌^◌, false, IsSome, List};
ghost use Rattle.mltl_base.specs.Atoms.{Row};
ghost use Rattle.tool_io.specs.Log.{OnLog, Prompt};
ghost use Rattle.r2u2_monitor.specs.Monitoring.{program_of, IsDrained, IsSame, Stands};
ghost use Rattle.r2u2_watch.specs.Feed.{Feed, text_meaning};
ghost use Rattle.r2u2_watch.specs.Trace.{due, is_marked, fed_rows, trace_rows, stamped_rows};
ghost use Rattle.r2u2_watch.specs.Watch.{CanWatch, EndsDone, IsWatch, NoneRose, WatchCause, first_of};
ghost use Rattle.r2u2_watch.specs.Endings.{told_as};
ghost use Rattle.r2u2_watch.specs.Telling.{StepCause};
ghost use Rattle.r2u2_watch.specs.Turns.{CanTake, Finds, IfRow, IsAtStart, IsUnderWay, LineSteps, MovesReader, ReaderIsAt, TakesCut, Turns, begins_at, cut_text};

use crate::Watched;
use crate::reader::{Found, Reader, read_fields, read_stamped};
use crate::report_lines::take_rows;
use crate::status::{Ending, LineFault};
use mltl_base::Style;
use mltl_base::steps::Steps;
use r2u2_monitor::Monitor;
use std::marker::Brand;
use std::ops::ControlFlow::{self, Break, Continue};
use std::sync::ledger::{Blank, Ledger};
use tool_io::{Host, Line, LineCut, Place};

/// Returns true if the line of the last `Row` is the first of the trace and begins with `#`.
fn is_header(cut: &LineCut) -> bool
    requires row { IsSome cut.now.row }
    ensures { result ≡ is_marked cut.now.number (cut_text cut.now) }
{
    cut.number() == 1 && matches!(cut.line(), [b'#', ..])
}

/// The course of a loop over a trace: its settings, and how far it has come.
#[derive(Drop)]
struct Course {
    /// The most lines after the header that are taken, and the most times.
    mission: u64,
    style: Style,
    /// The number of lines after the header that were taken.
    lines: u64,
    /// The reader of the next line.
    reader: Reader,
}

impl Course {
    /// Makes the course of a trace before its first line.
    fn new(mission: u64, style: Style, reader: Reader) -> Course
        ensures mission { result.mission ≡ mission }
        ensures style { result.style ≡ style }
        ensures lines { result.lines ≡ 0 }
        ensures reader { result.reader ≡ reader }
    {
        Course {
            mission,
            style,
            lines: 0,
            reader,
        }
    }

    /// Reads a line, and keeps its row aside. Nothing else of the monitor changes.
    #[inline(always)]
    fn read(&self, monitor: &mut Monitor, line: &[u8]) -> Found
        requires under_way { IsUnderWay self.now monitor.old }
        requires within { self.now.lines < self.now.mission }
        ensures told { (rows : List Row) (feed : Feed) → Stands monitor.old rows
            → ReaderIsAt feed self.now.reader self.now.lines rows
            → Finds result feed
            (text_meaning (program_of monitor.old) self.now.mission feed line.now)
            self.now.lines rows monitor.old monitor.new }
        ensures ready { IfRow result (λ copies. CanTake copies monitor.new) }
        ensures same { IsSame monitor.old monitor.new }
        ensures drained { IsDrained monitor.new }
    {
        match self.reader {
            Reader::Plain => read_fields(monitor, line, 0, Reader::Plain),
            Reader::Stamped(last) => read_stamped(monitor, line, last, self.mission),
        }
    }

    /// Takes the row of the line that was cut, and writes its verdict lines.
    #[inline(always)]
    fn take_row<H: Host, L: Ledger>(
        &mut self,
        monitor: &mut Monitor,
        cut: &LineCut,
        host: &mut H,
        steps: &mut Steps<L>,
    ) -> ControlFlow<Ending, ()>
        requires row { IsSome cut.now.row }
        requires under_way { IsUnderWay self.old monitor.old }
        requires within { self.old.lines < self.old.mission }
        ensures cause { StepCause (told_as result) (H.faults host.old) (H.faults host.new) }
        ensures log { (rows : List Row) (feed : Feed) → Stands monitor.old rows
            → ReaderIsAt feed self.old.reader self.old.lines rows
            → OnLog (H.log host.old) (H.log host.new)
            (TakesCut (told_as result) (program_of monitor.old) self.old self.new feed rows
            cut.now monitor.new) }
        ensures program { program_of monitor.new ≡ program_of monitor.old }
        ensures moves { MovesReader self.old self.new }
    {
        match self.read(monitor, cut.line()) {
            Found::Row(copies, reader) => {
                self.reader = reader;
                if take_rows(monitor, host, copies, self.style, steps) {
                    Continue(())
                } else {
                    Break(Ending::WriteFault)
                }
            }
            Found::Blank => Continue(()),
            Found::Bad(fault) => Break(Ending::BadLine(cut.number(), fault)),
            Found::Past => Break(Ending::TooLong),
        }
    }

    /// Cuts the next line of the trace, and takes its row, unless the line is the header or past
    /// the mission time.
    #[inline(always)]
    fn next_line<H: Host, L: Ledger>(
        &mut self,
        monitor: &mut Monitor,
        cut: &mut LineCut,
        host: &mut H,
        steps: &mut Steps<L>,
    ) -> ControlFlow<Ending, ()>
        requires under_way { IsUnderWay self.old monitor.old }
        requires within { self.old.lines ≤ self.old.mission }
        ensures cause { StepCause (told_as result) (H.faults host.old) (H.faults host.new) }
        ensures log { (rows : List Row) (feed : Feed) → Stands monitor.old rows
            → ReaderIsAt feed self.old.reader self.old.lines rows
            → OnLog (H.log host.old) (H.log host.new)
            (Turns (told_as result) (program_of monitor.old) self.old self.new feed rows
            cut.old cut.new monitor.new) }
        ensures program { program_of monitor.new ≡ program_of monitor.old }
    {
        match cut.next_line(host, Place::Trace) {
            Line::End => Break(Ending::Done),
            Line::ReadFault => Break(Ending::ReadFault),
            Line::Row if is_header(cut) => Continue(()),
            Line::Row if self.lines == self.mission => Break(Ending::TooLong),
            Line::LongLine if self.lines == self.mission => Break(Ending::TooLong),
            Line::Row => {
                self.take_row(monitor, cut, host, steps)?;
                self.lines += 1;
                Continue(())
            }
            Line::LongLine => {
                let number = cut.number().saturating_add(1);
                Break(Ending::BadLine(number, LineFault::LongLine))
            }
        }
    }
}

/// Runs the loop with a separate counter.
fn turns<H: Host, L: Ledger>(
    monitor: &mut Monitor,
    cut: &mut LineCut,
    host: &mut H,
    mut course: Course,
    blank: Blank,
) -> Watched
    requires name { blank.name ≡ L.name }
    requires parts { blank.parts ≡ L.parts }
    requires some_parts { 0 < blank.parts }
    requires ready { CanWatch monitor.old cut.old course.mission }
    requires start { IsAtStart course }
    ensures cause { WatchCause result (H.faults host.old) (H.faults host.new) }
    ensures log { OnLog (H.log host.old) (H.log host.new)
        (IsWatch (program_of monitor.old) course.style
        (fed_rows (begins_at course.reader) (program_of monitor.old) course.mission
        (first_of cut.old)) cut.old cut.new monitor.new result) }
    ensures program { program_of monitor.new ≡ program_of monitor.old }
{
    let mut steps = Steps::<L>::start(blank);
    loop {
        if let Break(ending) = course.next_line(monitor, cut, host, &mut steps) {
            return ending.watched();
        }
    }
}

/// Watches a trace: reads its lines one by one from the place `Trace`, and writes the verdict lines
/// of each to the place `Out` before it reads on. A header is passed over, and a line past
/// `mission` lines after it ends the loop. It doesn't allocate.
///
/// Lines are counted from the first line that the cut returns next, and numbered as the cut numbers
/// them; the header is a line with the number 1 that begins with `#`. If the loop ends by a fault,
/// the lines of the rows before are out, or, after a failed write, a prefix of them.
pub fn watch<H: Host>(
    monitor: &mut Monitor,
    cut: &mut LineCut,
    host: &mut H,
    mission: u64,
    style: Style,
) -> Watched
    requires { CanWatch monitor.old cut.old mission }
    ensures cause { WatchCause result (H.faults host.old) (H.faults host.new) }
    ensures log { OnLog (H.log host.old) (H.log host.new) (IsWatch (program_of monitor.old) style
        (trace_rows (program_of monitor.old) mission (first_of cut.old))
        cut.old cut.new monitor.new result) }
    ensures prompt { OnLog (H.log host.old) (H.log host.new) (Prompt (due
        (program_of monitor.old) style (trace_rows (program_of monitor.old) mission
        (first_of cut.old)) false) cut.old.pending) }
    ensures completes { NoneRose (H.faults host.old) (H.faults host.new)
        → OnLog (H.log host.old) (H.log host.new) (EndsDone result
        (trace_rows (program_of monitor.old) mission (first_of cut.old)) cut.old cut.new) }
    ensures program { program_of monitor.new ≡ program_of monitor.old }
{
    let course = Course::new(mission, style, Reader::Plain);
    turns::<H, Brand>(monitor, cut, host, course, Blank::new(1))
}

/// Watches a trace of stamped rows as `watch` does, but each row holds from the time of its stamp
/// until the time of the next stamp. The mission time counts times too, and a row of that time or a
/// later one ends the loop before its gap is filled.
pub fn watch_timed<H: Host>(
    monitor: &mut Monitor,
    cut: &mut LineCut,
    host: &mut H,
    mission: u64,
    style: Style,
) -> Watched
    requires { CanWatch monitor.old cut.old mission }
    ensures cause { WatchCause result (H.faults host.old) (H.faults host.new) }
    ensures log { OnLog (H.log host.old) (H.log host.new) (IsWatch (program_of monitor.old) style
        (stamped_rows (program_of monitor.old) mission (first_of cut.old))
        cut.old cut.new monitor.new result) }
    ensures prompt { OnLog (H.log host.old) (H.log host.new) (Prompt (due
        (program_of monitor.old) style (stamped_rows (program_of monitor.old) mission
        (first_of cut.old)) false) cut.old.pending) }
    ensures completes { NoneRose (H.faults host.old) (H.faults host.new)
        → OnLog (H.log host.old) (H.log host.new) (EndsDone result
        (stamped_rows (program_of monitor.old) mission (first_of cut.old)) cut.old cut.new) }
    ensures program { program_of monitor.new ≡ program_of monitor.old }
{
    let course = Course::new(mission, style, Reader::Stamped(None));
    turns::<H, Brand>(monitor, cut, host, course, Blank::new(1))
}
