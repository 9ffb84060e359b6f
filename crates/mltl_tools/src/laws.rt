//! Laws of compiling and then watching. Each law is the contract of a function with an empty body.

ghost use Rattle.std.specs.Prelude.{◌≡◌, ◌∷◌, [], List as Seq, Option as Maybe, ℕ};
ghost use Rattle.mltl_base.specs.declared.report.Word.{Word as Told};
ghost use Rattle.mltl_base.specs.Atoms.{Row};
ghost use Rattle.mltl_base.specs.Reports.{Output, words};
ghost use Rattle.tool_io.specs.Log.{Event};
ghost use Rattle.tool_words.specs.R2u2Words.{RunAsked};
ghost use Rattle.mltl_tools.specs.Sentence.{AreLongestByRow, HasCompiled, HasWatched, ReportsText, told_one_by_one};

/// If [`c2po_main`](crate::c2po_main) compiled a text, and [`r2u2_main`](crate::r2u2_main) ran its
/// program over a trace, both with success, the lines report the text's own formulas over the rows
/// of the trace.
///
/// Each time is reported once and in order, with a word that is settled whatever rows follow, and
/// no later than its delay. The program may be in simplified form. Nothing but its bytes passes
/// from the first run to the second.
pub fn compiled_and_watched()
    ensures { (compiling watching : Seq (Seq ℕ)) (text bytes : Seq ℕ) (header : Maybe (Seq ℕ))
        (asked : RunAsked) (made ran : Seq Event) →
        HasCompiled compiling text header bytes made → HasWatched watching asked bytes ran →
        ReportsText text header asked bytes ran }
{}

/// Two reports of one word, at times 0 and 1, aren't in the style of runs if nothing is known of
/// their output after the first of two rows: the second row decides both times, so one report would
/// cover them.
pub fn one_by_one_is_not_longest()
    ensures { (o : Output) (first second : Row) (w : Told) → words (first ∷ []) o ≡ [] →
        ¬ AreLongestByRow (o ∷ []) (told_one_by_one w) (first ∷ second ∷ []) }
{}
