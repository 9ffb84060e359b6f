//! The first report that is open.

ghost use Rattle.std.specs.Prelude.{◌+◌, ◌≤◌, List, IfSome, length};
ghost use Rattle.mltl_base.specs.declared.limits.TheConstants.{MAX_MISSION};
ghost use Rattle.mltl_base.specs.Atoms.{Row};
ghost use Rattle.contract_status.specs.Cursors.{FitsEngines, KeepsStretch, MovesOn, outs_after};
ghost use Rattle.contract_status.specs.Standing.{EnginesStandFor, GivesNext};

use crate::cursor::Cursor;
use crate::engines::Engines;
use mltl_base::steps::Steps;
use mltl_base::{Report, Style};
use obs_verify::Checked;
use std::sync::ledger::Ledger;

/// Returns the first report that the outputs' next times leave open, and moves its output's next
/// time past it. If none is open, returns `None`, and no next time changes. The search goes on at
/// the cursor. After `None` the cursor is past all outputs, and has no stretch, since the search
/// would have returned it. It counts a step for itself and for each output that it looks at.
#[inline(always)]
pub fn tell_first<L: Ledger>(
    style: Style,
    checked: &Checked,
    engines: &Engines,
    next_times: &mut [u64],
    cursor: &mut Cursor,
    steps: &mut Steps<L>,
) -> Option<Report>
    requires early { engines.now.rows ≤ MAX_MISSION }
    requires stands { (rows : List Row)
        × EnginesStandFor checked.now rows engines.now next_times.old }
    requires cursor { FitsEngines checked.now engines.now next_times.old cursor.old }
    ensures gives { GivesNext style checked.now engines.now.rows
        engines.now.ft.now engines.now.pt.now result next_times.old next_times.new }
    ensures cursor { FitsEngines checked.now engines.now next_times.new cursor.new }
    ensures moves { MovesOn engines.now.rows (length next_times.old) result cursor.old cursor.new }
    ensures keeps { (rows : List Row) → EnginesStandFor checked.now rows engines.now next_times.old
        → IfSome result (λ report. KeepsStretch checked.now rows report cursor.new) }
    ensures counted { steps.new + outs_after next_times.old cursor.new
        ≤ steps.old + outs_after next_times.old cursor.old + 2 }
{
    steps.tick();
    let program = checked.program();
    match engines.next_open(program, next_times, *cursor, steps) {
        None => {
            cursor.out = program.outs.len();
            None
        }
        Some((k, stretch)) => {
            let time = stretch.last_covered(style, next_times[k]);
            next_times[k] = time + 1;
            cursor.move_after(k, time, stretch, engines.rows);
            Some(Report {
                out: k as u32,
                time,
                word: stretch.word,
            })
        }
    }
}
