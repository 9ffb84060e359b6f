//! Laws of reports: words of outputs are settled, and reports of both styles cover the known words.

ghost use Rattle.mltl_base.specs.Atoms.{Row};
ghost use Rattle.mltl_base.specs.Reports.{AreDistinctBeside, IsRising, IsSettled, Output, delay, meaning, of_row, reports, reports_after, reports_of, told, words};
ghost use Rattle.mltl_base.specs.Settled.{IsPrefix};
ghost use Rattle.mltl_base.specs.declared.report.Report.{Report as Line};
ghost use Rattle.mltl_base.specs.declared.report.Style.{Style as Form};
ghost use Rattle.mltl_base.specs.declared.report.Style.TheVariants.{Each as OneEach, Runs as OneARun};
ghost use Rattle.mltl_base.specs.declared.report.Word.{Word as Told};
ghost use Rattle.std.specs.List.{range_with_len};
ghost use Rattle.std.specs.Prelude.{◌≡◌, ℕ, ◌+◌, ◌<◌, Some, List, [], ◌∷◌, ◌++◌, length, map, drop, slice_get};

/// The known words of rows begin the known words of more rows, are settled, belong to times of
/// the rows, and come within the delay of the output.
#[tactic(auto, using(crate::proofs::Words::words_begin, crate::proofs::Words::word_settled, crate::proofs::Words::word_within, crate::proofs::Words::word_known))]
pub fn words_are_settled()
    ensures begins { (rows more : List Row) (o : Output) →
        IsPrefix (words rows o) (words (rows ++ more) o) }
    ensures settled { (rows : List Row) (o : Output) (t : ℕ) (w : Told) →
        slice_get (words rows o) t ≡ Some w → IsSettled rows o t w }
    ensures at_row { (rows : List Row) (o : Output) (t : ℕ) (w : Told) →
        slice_get (words rows o) t ≡ Some w → t < length rows }
    ensures known { (rows : List Row) (o : Output) (t : ℕ) →
        t + delay o < length rows → slice_get (words rows o) t ≡ Some (meaning rows o t) }
{}

/// The reports of output k cover its known words, each time once and in order.
#[tactic(auto, using(crate::proofs::Telling::told_words, crate::proofs::Telling::reports_rise))]
pub fn reports_tell_known_words()
    ensures told { (style : Form) (k : ℕ) (outs : List Output) (rows : List Row) (o : Output) →
        slice_get outs k ≡ Some o → told k 0 (reports style outs rows) ≡ words rows o }
    ensures rising { (style : Form) (k : ℕ) (outs : List Output) (rows : List Row) (o : Output) →
        slice_get outs k ≡ Some o → IsRising k 0 (reports style outs rows) }
{}

/// With a report for each time, the reports of output k have the times 0, 1, 2 and so on, one for
/// each of its known words, and these words.
#[tactic(auto, using(crate::proofs::Neighbours::times_count_up, crate::proofs::Neighbours::words_one_by_one))]
pub fn reports_count_up()
    ensures times { (k : ℕ) (outs : List Output) (rows : List Row) (o : Output) →
        slice_get outs k ≡ Some o →
        map (λ (r : Line). r.time) (reports_of k (reports OneEach outs rows))
        ≡ range_with_len 0 (length (words rows o)) }
    ensures words { (k : ℕ) (outs : List Output) (rows : List Row) (o : Output) →
        slice_get outs k ≡ Some o →
        map (λ (r : Line). r.word) (reports_of k (reports OneEach outs rows)) ≡ words rows o }
{}

/// With a report for each stretch, no stretch that a row brings could be longer: neighbours among
/// its reports of output k differ in their word.
#[tactic(auto, using(crate::proofs::Neighbours::row_runs_differ))]
pub fn runs_are_longest()
    ensures distinct { (k : ℕ) (outs : List Output) (rows : List Row) (r : Row) (o : Output) →
        slice_get outs k ≡ Some o → AreDistinctBeside (reports_of k (of_row OneARun 0 outs rows r)) }
{}

/// The reports after a row cover the words that it makes known, each time once and in order.
#[tactic(auto, using(crate::proofs::Telling::told_new_words, crate::proofs::Telling::row_rises))]
pub fn row_tells_new_words()
    ensures told { (style : Form) (k : ℕ) (outs : List Output) (rows : List Row) (r : Row)
        (o : Output) → slice_get outs k ≡ Some o →
        told k (length (words rows o)) (of_row style 0 outs rows r)
        ≡ drop (length (words rows o)) (words (rows ++ r ∷ []) o) }
    ensures rising { (style : Form) (k : ℕ) (outs : List Output) (rows : List Row) (r : Row)
        (o : Output) → slice_get outs k ≡ Some o →
        IsRising k (length (words rows o)) (of_row style 0 outs rows r) }
{}

/// The reports of more rows are the reports of the rows, followed by what the further rows bring.
#[tactic(auto, using(crate::proofs::Telling::reports_append, crate::proofs::Telling::reports_push))]
pub fn reports_follow_rows()
    ensures appended { (style : Form) (outs : List Output) (rows more : List Row) →
        reports style outs (rows ++ more) ≡ reports style outs rows ++ reports_after style outs rows more }
    ensures pushed { (style : Form) (outs : List Output) (rows : List Row) (r : Row) →
        reports style outs (rows ++ r ∷ []) ≡ reports style outs rows ++ of_row style 0 outs rows r }
{}
