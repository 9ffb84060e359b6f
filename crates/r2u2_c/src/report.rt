//! Reports as C reads them.

ghost use Rattle.std.specs.Prelude.{◌≡◌};
ghost use Rattle.r2u2_monitor.specs.Monitoring.{ReturnsNext};
ghost use Rattle.r2u2_c.specs.Reports.{shown, style_of, word_number};

use mltl_base::{Report, Style, Word};
use r2u2_monitor::Monitor;

/// A report as C reads it: the word of output `output`, counted from 0, at `time`, in rows from 0.
#[repr(C)]
#[derive(Clone, Copy)]
pub struct Told {
    pub time: u64,
    pub output: u32,
    /// The word: 0 false, 1 true, 2 inactive, 3 invalid, 4 verified.
    pub word: u32,
}

impl Told {
    /// Returns a report as C reads it.
    pub(crate) fn of(report: Report) -> Told
        ensures { result ≡ shown report }
    {
        Told {
            time: report.time,
            output: report.out,
            word: number_of(report.word),
        }
    }
}

fn number_of(word: Word) -> u32
    ensures { result ≡ word_number word }
{
    match word {
        Word::F => 0,
        Word::T => 1,
        Word::Inactive => 2,
        Word::Invalid => 3,
        Word::Verified => 4,
    }
}

/// Returns the style for a number: of each time if it is 0, else of each longest stretch of one
/// word.
fn style_by(runs: u32) -> Style
    ensures { result ≡ style_of runs }
{
    if runs == 0 { Style::Each } else { Style::Runs }
}

/// Returns the next report, in the style for a number.
#[inline(always)]
pub(crate) fn next_of(monitor: &mut Monitor, runs: u32) -> Option<Report>
    ensures { ReturnsNext (style_of runs) result monitor.old monitor.new }
{
    monitor.next(style_by(runs))
}
