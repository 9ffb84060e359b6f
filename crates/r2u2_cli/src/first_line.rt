//! The first line of the trace, which a run reads before its rows.

ghost use Rattle.std.specs.Prelude.{◌≡◌, ◌<◌, IfOk, is_some, length};
ghost use Rattle.std.specs.Option.{ForSome, option_copied};
ghost use Rattle.mltl_base.specs.declared.limits.TheConstants.{MAX_LINE_BYTES};
ghost use Rattle.tool_io.specs.Log.{OnLog};
ghost use Rattle.tool_io.specs.Cutting.{fresh};
ghost use Rattle.tool_words.specs.Causes.{PhaseCause};
ghost use Rattle.tool_words.specs.Files.{file_limit, file_place};
ghost use Rattle.tool_words.specs.FileReading.{FileLog, unread};
ghost use Rattle.r2u2_cli.specs.Phases.{FirstLog, IsFirst, cut_header};

use r2u2_watch::TraceWhy;
use tool_io::{Host, Line, LineCut, Place};
use tool_words::Status;

/// Reads the first line of the trace, and makes the cut return it once more. Returns true if there
/// is one.
pub(crate) fn read_first_line<H: Host>(cut: &mut LineCut, host: &mut H) -> Result<bool, Status>
    requires { cut.old ≡ fresh }
    ensures cause { PhaseCause result (H.faults host.old) (H.faults host.new) }
    ensures any { IfOk result (λ any. any ≡ is_some cut.new.row) }
    ensures log { OnLog (H.log host.old) (H.log host.new) (FirstLog result cut.new) }
{
    match cut.next_line(host, Place::Trace) {
        Line::Row => {
            cut.keep();
            Ok(true)
        }
        Line::End => Ok(false),
        Line::LongLine => Err(Status::BadTrace(1, TraceWhy::LongLine)),
        Line::ReadFault => Err(Status::ReadFault(Place::Trace)),
    }
}

/// Returns the header: the first line of the trace, if there is one and it begins with `#`.
pub(crate) fn header_line(cut: &LineCut, any: bool) -> Option<&[u8]>
    requires any { any ≡ is_some cut.now.row }
    requires first { IsFirst cut.now }
    ensures header { option_copied result ≡ cut_header cut.now }
    ensures short { ForSome result (λ line. length line.now < MAX_LINE_BYTES) }
{
    if !any {
        return None;
    }
    match cut.line() {
        line @ [b'#', ..] => Some(line),
        _ => None,
    }
}
