//! Laws that follow from the definitions of a monitor. Each law is the contract of a function with
//! an empty body.

ghost use Rattle.std.specs.Prelude.{◌≡◌, ◌↔◌, ℕ, ◌+◌, ◌*◌, ◌<◌, ◌≤◌, List, [], ◌∷◌, Some, Contains, length, slice_get, slice_index, sum};
ghost use Rattle.mltl_base.specs.declared.program.Out.{Out as Reported};
ghost use Rattle.mltl_base.specs.declared.program.Program.{Program as Observer};
ghost use Rattle.mltl_base.specs.declared.report.Report.{Report as Given};
ghost use Rattle.mltl_base.specs.declared.report.Style.{Style as Form};
ghost use Rattle.mltl_base.specs.Atoms.{Row};
ghost use Rattle.mltl_base.specs.Programs.{IsFit, outputs};
ghost use Rattle.mltl_base.specs.Queues.{queue_lengths, reported, slot_count};
ghost use Rattle.mltl_base.specs.Reports.{IsSettled, Output, delay};
ghost use Rattle.ft_engine.specs.Standing.{lowest_at, queue_width};
ghost use Rattle.contract_status.specs.Open.{known_counts_of};
ghost use Rattle.trace_feed.specs.Rows.{reading_of};
ghost use Rattle.r2u2_monitor.specs.declared.state.State.{State as Shown};
ghost use Rattle.r2u2_monitor.specs.Bursts.{OpensFew};
ghost use Rattle.obs_verify.specs.declared.Checked.TheInside.{Inside as CheckedFields};
ghost use Rattle.obs_verify.specs.declared.Checked.TheView as checked_shown;
ghost use Rattle.booleanizer.specs.declared.Bz.TheInside.{Inside as BzFields};
ghost use Rattle.booleanizer.specs.declared.Bz.TheView as bz_shown;
ghost use Rattle.contract_status.specs.declared.Outs.TheInside.{Inside as OutsFields};
ghost use Rattle.contract_status.specs.declared.Outs.TheView as outs_shown;
ghost use Rattle.trace_feed.specs.declared.Readings.TheInside.{Inside as ReadingsFields};
ghost use Rattle.trace_feed.specs.declared.Readings.TheView as readings_shown;
ghost use Rattle.r2u2_monitor.specs.declared.monitor.Monitor.TheInside.{Inside as MonitorFields};
ghost use Rattle.r2u2_monitor.specs.declared.monitor.Monitor.TheView as monitor_shown;
ghost use Rattle.r2u2_monitor.specs.declared.bytes.TheConstants.{NUMBER_BYTES, READING_BYTES, TIME_BYTES};
ghost use Rattle.r2u2_monitor.specs.Bytes.{bytes_of, bytes_of_checked, monitor_bytes};
ghost use Rattle.r2u2_monitor.specs.Holders.{bytes_in_booleanizer, bytes_in_checked, bytes_in_monitor, bytes_in_outputs, bytes_in_readings};
ghost use Rattle.r2u2_monitor.specs.Monitoring.{IsDrained, MonitorIsSound, Stands, TakesRow, open_in, places_of, program_of, room_total_of, slot_total_of, slots_of};
ghost use Rattle.r2u2_monitor.specs.RowFaults.{FitsColumn};

/// Each future-time instruction has the slots that the program stores for it, which are as many as
/// it needs.
#[tactic(auto, using(crate::proofs::Keeping::slots_needed))]
pub fn slots_are_those_needed()
    ensures stored { (monitor : Shown) (rows : List Row) → Stands monitor rows
        → slots_of monitor ≡ (program_of monitor).sizes.ft }
    ensures needed { (monitor : Shown) (rows : List Row) → Stands monitor rows
        → (program_of monitor).sizes.ft
        ≡ queue_lengths (program_of monitor).ft (program_of monitor).outs }
{}

/// The slots of all future-time instructions, and the room for boxes of all past-time instructions,
/// are the stored numbers, which are the numbers that the program needs. None is left over.
#[tactic(auto, using(crate::proofs::Keeping::none_left_over))]
pub fn no_slot_is_left_over()
    ensures slots { (monitor : Shown) (rows : List Row) → Stands monitor rows
        → slot_total_of monitor ≡ sum (program_of monitor).sizes.ft }
    ensures boxes { (monitor : Shown) (rows : List Row) → Stands monitor rows
        → room_total_of monitor ≡ sum (program_of monitor).sizes.pt }
    ensures needed { (monitor : Shown) (rows : List Row) → Stands monitor rows
        → slot_total_of monitor + room_total_of monitor ≡ slot_count
        (program_of monitor).ft (program_of monitor).pt (program_of monitor).outs }
{}

/// A monitor holds the bytes that its program predicts, at any time.
#[tactic(auto, using(crate::proofs::Holding::holds_what_it_takes))]
pub fn monitors_keep_their_bytes()
    ensures { (monitor : Shown) → MonitorIsSound monitor
        → bytes_of monitor ≡ monitor_bytes (program_of monitor) }
{}

/// The bytes that contracts count for a checked program, and for a monitor, are the bytes of all of
/// their fields, each of which is named.
#[tactic(auto, using(crate::proofs::Holding::checked_fields, crate::proofs::Holding::monitor_fields))]
pub fn fields_hold_what_is_counted()
    ensures checked { (fields : CheckedFields) → checked_shown.invariant fields
        → bytes_in_checked fields ≡ bytes_of_checked (checked_shown.view fields) }
    ensures monitor { (fields : MonitorFields) → monitor_shown.invariant fields
        → bytes_in_monitor fields ≡ bytes_of (monitor_shown.view fields) }
{}

/// The Booleanizer, the outputs and the readings of columns have one list each, which contracts
/// see.
pub fn fields_hold_one_list()
    ensures numbers { (fields : BzFields)
        → bytes_in_booleanizer fields ≡ NUMBER_BYTES * length (bz_shown.view fields) }
    ensures times { (fields : OutsFields)
        → bytes_in_outputs fields ≡ TIME_BYTES * length (outs_shown.view fields) }
    ensures readings { (fields : ReadingsFields)
        → bytes_in_readings fields ≡ READING_BYTES * length (readings_shown.view fields) }
{}

/// A monitor has no report to return if and only if nothing is open after the rows that it
/// represents, in either style.
pub fn drained_is_nothing_open()
    ensures { (style : Form) (monitor : Shown) (rows : List Row) → Stands monitor rows
        → IsDrained monitor ↔ (open_in style monitor rows ≡ []) }
{}

/// The queues keep the verdicts that an output reads from its next time on. When all reports were
/// returned, this time is the number of its known words, and at least n less the width of each
/// instruction that it reports.
#[tactic(auto, using(crate::proofs::Keeping::entries_stay, crate::proofs::Keeping::told_places, crate::proofs::Keeping::told_wide))]
pub fn reads_are_kept()
    ensures kept { (monitor : Shown) (rows : List Row) (k g : ℕ) (output : Reported) →
        Stands monitor rows → slice_get (program_of monitor).outs k ≡ Some output
        → Contains (reported output) g
        → lowest_at monitor.running.ft g ≤ slice_index (places_of monitor) k }
    ensures drained { (monitor : Shown) (rows : List Row) →
        Stands monitor rows → IsDrained monitor
        → places_of monitor ≡ known_counts_of (program_of monitor) rows }
    ensures wide { (monitor : Shown) (rows : List Row) (k g : ℕ) (output : Reported) →
        Stands monitor rows → IsDrained monitor
        → slice_get (program_of monitor).outs k ≡ Some output → Contains (reported output) g
        → length rows ≤ slice_index (places_of monitor) k + queue_width (program_of monitor) g }
{}

/// The first report that is open covers the times from its output's next time up to its own, and
/// its word is settled at each of them.
#[tactic(auto, using(crate::proofs::Settled::first_covers, crate::proofs::Settled::first_is_settled))]
pub fn reports_are_settled()
    ensures upward { (style : Form) (monitor : Shown) (rows : List Row)
        (report : Given) (more : List Given) → open_in style monitor rows ≡ report ∷ more
        → slice_index (places_of monitor) report.out ≤ report.time }
    ensures settled { (style : Form) (monitor : Shown) (rows : List Row)
        (report : Given) (more : List Given) (o : Output) (t : ℕ) →
        open_in style monitor rows ≡ report ∷ more
        → slice_get (outputs (program_of monitor)) report.out ≡ Some o
        → slice_index (places_of monitor) report.out ≤ t → t ≤ report.time
        → IsSettled rows o t report.word }
{}

/// When all reports were returned, each time below n less the delay of an output was reported.
#[tactic(auto, using(crate::proofs::Keeping::told_in_time))]
pub fn reports_come_in_time()
    ensures told { (monitor : Shown) (rows : List Row) (k : ℕ) (o : Output) →
        Stands monitor rows → IsDrained monitor
        → slice_get (outputs (program_of monitor)) k ≡ Some o
        → length rows ≤ slice_index (places_of monitor) k + delay o }
{}

/// A row brings at most as many reports as `most_reports` returns for the program, in either style.
pub fn rows_bring_few_reports()
    ensures { (row : Row) (before after : Shown) → TakesRow row before after
        → OpensFew row before after }
{}

/// Numbers are a row of a program if and only if there is one for each column, and each column can
/// hold its number.
#[tactic(auto, using(crate::proofs::Fitting::fit_from_columns))]
pub fn fit_rows_fit_each_column()
    ensures wide { (program : Observer) (row : Row) → IsFit program row
        → length row ≡ program.width }
    ensures holds { (program : Observer) (row : Row) (c : ℕ) → IsFit program row
        → FitsColumn (reading_of program.bz) row c }
    ensures fits { (program : Observer) (row : Row) → length row ≡ program.width
        → ((c : ℕ) → c < length row → FitsColumn (reading_of program.bz) row c)
        → IsFit program row }
{}
