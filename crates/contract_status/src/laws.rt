//! Laws that follow from the definitions of open reports. Each law is the contract of a function
//! with an empty body.

ghost use Rattle.std.specs.Prelude.{◌≡◌, ◌↔◌, ℕ, ◌+◌, ◌≤◌, List, [], ◌∷◌, ◌++◌, Some, Contains, length, slice_get, slice_index};
ghost use Rattle.mltl_base.specs.declared.program.Out.{Out as Reported};
ghost use Rattle.mltl_base.specs.declared.program.Program.{Program as Observer};
ghost use Rattle.mltl_base.specs.declared.report.Style.{Style as Form};
ghost use Rattle.mltl_base.specs.declared.report.Style.TheVariants.{Each as each, Runs as runs};
ghost use Rattle.mltl_base.specs.Atoms.{Row};
ghost use Rattle.mltl_base.specs.Queues.{reported};
ghost use Rattle.mltl_base.specs.Reports.{Output, of_row};
ghost use Rattle.obs_verify.specs.WellFormed.{IsWellFormed};
ghost use Rattle.ft_engine.specs.declared.Ft.{Ft};
ghost use Rattle.ft_engine.specs.Standing.{FtHasTaken, lowest_at, queue_width};
ghost use Rattle.contract_status.specs.Open.{ArePlaced, known_counts, known_counts_of, left_open, open_of};

/// Nothing is open in one style if and only if nothing is open in the other.
#[tactic(auto, using(crate::proofs::Opening::same_end))]
pub fn styles_end_together()
    ensures { (rows : List Row) (k : ℕ) (outs : List Output) (next_times : List ℕ) →
        (left_open each rows k outs next_times ≡ []) ↔ (left_open runs rows k outs next_times ≡ []) }
{}

/// If all known words were reported before a row, the reports that are open after it are the
/// reports of the row.
#[tactic(auto, using(crate::proofs::Opening::open_after_row))]
pub fn row_opens_its_reports()
    ensures { (style : Form) (k : ℕ) (outs : List Output) (rows : List Row) (row : Row) →
        left_open style (rows ++ row ∷ []) k outs (known_counts rows outs) ≡ of_row style k outs rows row }
{}

/// Nothing is open if and only if the next times are the numbers of known words. These are valid
/// next times after the next row.
#[tactic(auto, using(crate::proofs::Draining::drained_counts))]
pub fn drained_places_are_known_counts()
    ensures counts { (style : Form) (program : Observer) (rows : List Row) (next_times : List ℕ) →
        ArePlaced program rows next_times → open_of style program rows next_times ≡ [] → next_times ≡ known_counts_of program rows }
    ensures drained { (style : Form) (program : Observer) (rows : List Row)
        → open_of style program rows (known_counts_of program rows) ≡ [] }
    ensures placed { (program : Observer) (rows : List Row) (row : Row)
        → ArePlaced program (rows ++ row ∷ []) (known_counts_of program rows) }
{}

/// If nothing is open after n rows, an output's next time is at least n less the width of each
/// future-time instruction that it reports.
#[tactic(auto, using(crate::proofs::Draining::drained_wide))]
pub fn drained_places_are_wide()
    ensures { (program : Observer) (rows : List Row) (k g : ℕ) (output : Reported) →
        IsWellFormed program → slice_get program.outs k ≡ Some output → Contains (reported output) g
        → length rows ≤ slice_index (known_counts_of program rows) k + queue_width program g }
{}

/// The engine keeps the verdicts that an output reads from its next time on. So, if nothing was
/// open before a row, it keeps them from the number of words known before the row on.
#[tactic(auto, using(crate::proofs::Draining::entries_kept, crate::proofs::Draining::entries_kept_after_row))]
pub fn reads_are_kept()
    ensures placed { (program : Observer) (rows : List Row) (ft : Ft) (next_times : List ℕ)
        (k g : ℕ) (output : Reported) →
        IsWellFormed program → FtHasTaken program rows ft → ArePlaced program rows next_times
        → slice_get program.outs k ≡ Some output → Contains (reported output) g → lowest_at ft g ≤ slice_index next_times k }
    ensures after_row { (program : Observer) (rows : List Row) (row : Row) (ft : Ft)
        (k g : ℕ) (output : Reported) →
        IsWellFormed program → FtHasTaken program (rows ++ row ∷ []) ft
        → slice_get program.outs k ≡ Some output → Contains (reported output) g → lowest_at ft g ≤ slice_index (known_counts_of program rows) k }
{}
