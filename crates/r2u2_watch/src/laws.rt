//! Laws that follow from the definitions of a loop over a trace. Each law is the contract of a
//! function with an empty body.

ghost use Rattle.std.specs.Prelude.{◌≡◌, ℕ, List, ◌++◌};
ghost use Rattle.mltl_base.specs.declared.program.Program.{Program as Observer};
ghost use Rattle.mltl_base.specs.declared.report.Style.{Style};
ghost use Rattle.tool_io.specs.declared.host.Place.{Place as Stream};
ghost use Rattle.tool_io.specs.declared.host.Place.TheVariants.{Trace};
ghost use Rattle.tool_io.specs.Cutting.{Cutting, lines_of};
ghost use Rattle.tool_io.specs.Log.{Event, taken};
ghost use Rattle.r2u2_monitor.specs.declared.state.State.{State};
ghost use Rattle.r2u2_watch.specs.declared.status.Watched.{Watched};
ghost use Rattle.r2u2_watch.specs.declared.status.Watched.TheVariants.{Done};
ghost use Rattle.r2u2_watch.specs.Trace.{Clean, TraceRows};
ghost use Rattle.r2u2_watch.specs.Watch.{IsWatch, NoneRose, WatchCause};

/// If no fault was counted, and the trace has no faulty line and stays within the mission time, the
/// loop ends with success.
pub fn watch_takes_none()
    ensures { (answer : Watched) (program : Observer) (style : Style)
        (rows_in : List (List ℕ) → TraceRows) (start cut : Cutting) (monitor : State)
        (events : List Event) (before now : Stream → ℕ) → WatchCause answer before now
        → IsWatch program style rows_in start cut monitor answer events → NoneRose before now
        → (rows_in (lines_of cut.ended (start.pending ++ taken Trace events))).stop ≡ Clean
        → answer ≡ Done }
{}
