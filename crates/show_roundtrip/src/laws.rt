//! Laws of programs that are shown as text, and of the texts.

ghost use Rattle.std.specs.Prelude.{◌≡◌, ℕ, All, List, None, Ok, map};
ghost use Rattle.mltl_base.specs.declared.program.Columns.{Columns as Places};
ghost use Rattle.mltl_base.specs.declared.signal.Signal.{Signal as Declared};
ghost use Rattle.c2po_compile.specs.Images.{IsImageOf};
ghost use Rattle.c2po_compile.specs.Front.{first_refusal, items_in};
ghost use Rattle.c2po_compile.specs.ImageFiles.{compile_over, stored_columns};
ghost use Rattle.mltl_base.specs.declared.program.Program.{Program as Observer};
ghost use Rattle.mltl_base.specs.Subformulas.{Asked, IsTensed, unfolded_outputs};
ghost use Rattle.c2po_ast.specs.Outputs.{asked_over};
ghost use Rattle.obs_verify.specs.Layout.{HasLayout};
ghost use Rattle.c2po_compile.specs.Simplified.{compile_simplified_over};
ghost use Rattle.show_roundtrip.specs.Named.{HasOwnWords};
ghost use Rattle.obs_show.specs.Limits.{show_fault};
ghost use Rattle.obs_verify.specs.WellFormed.{IsWellFormed};
ghost use Rattle.c2po_types.specs.FirstFault.{first_fault};
ghost use Rattle.c2po_types.specs.Signals.{signals_of};
ghost use Rattle.c2po_types.specs.Outputs.{outputs_of};
ghost use Rattle.c2po_lexer.specs.Tokens.{tokens_of};
ghost use Rattle.c2po_parse.specs.Specification.{spec_of};
ghost use Rattle.obs_show.specs.Lines.{Line};
ghost use Rattle.obs_show.specs.Text.{shown_lines, lines_text, text};
ghost use Rattle.show_roundtrip.specs.Unfolded.{declared_by};
ghost use Rattle.show_roundtrip.specs.Said.{HaveWords, line_items, lines_marks};
ghost use Rattle.show_roundtrip.specs.Written.{MarksAreReadable, Mark, tokens_by, marks_text};

/// The tokens of a written text are the tokens that were written, each at its line and place.
#[tactic(auto, using(crate::proofs::Reading::written_tokens))]
pub fn written_tokens_are_read()
    ensures tokens { (marks : List Mark) → MarksAreReadable marks →
        tokens_of (marks_text marks) ≡ Ok (tokens_by 1 0 marks) }
{}

/// Lines whose names are names of the language, and whose numbers aren't negative, can be read:
/// their text has the tokens that were written, and these say one item for each line, on that line.
#[tactic(auto, using(crate::proofs::Items::lines_tokens, crate::proofs::Items::lines_items))]
pub fn written_lines_are_read()
    ensures tokens { (shown_lines : List Line) → HaveWords shown_lines →
        tokens_of (lines_text shown_lines) ≡ Ok (tokens_by 1 0 (lines_marks shown_lines)) }
    ensures items { (shown_lines : List Line) →
        spec_of (tokens_by 1 0 (lines_marks shown_lines)) ≡ Ok (line_items 1 shown_lines) }
{}

/// The lines of a well-formed program of version 2 mean its formulas: if their items have no fault,
/// their outputs over the columns of the program's signals are the outputs that the program unfolds
/// to.
#[tactic(auto, using(crate::proofs::Meaning::program_asks, crate::proofs::Signals::program_declares))]
pub fn written_lines_mean_their_formulas()
    ensures outputs { (program : Observer) → IsWellFormed program → program.version ≡ 2 →
        first_fault (line_items 1 (shown_lines program)) ≡ None →
        map (asked_over (map (λ signal. signal.column) program.signals))
        (outputs_of (line_items 1 (shown_lines program))) ≡ unfolded_outputs program }
    ensures signals { (program : Observer) →
        signals_of (line_items 1 (shown_lines program)) ≡ map declared_by program.signals }
{}

/// The text of a program that is the image of a specification compiles to the program: if the text
/// has no fault, its image over the columns that the program stores is the program itself.
#[tactic(auto, using(crate::proofs::Returning::program_returns))]
pub fn shown_programs_return()
    ensures returns { (signals : List Declared) (columns : Places) (outs : List Asked)
        (program : Observer) → IsImageOf signals columns outs program → All IsTensed outs →
        IsWellFormed program → HaveWords (shown_lines program) → first_refusal (text program) ≡ None →
        compile_over (text program) (stored_columns program) ≡ program }
{}

/// The text of a program can be read as its lines: if their names are names of the language and
/// their numbers aren't negative, it says one item for each line.
#[tactic(auto, using(crate::proofs::Returning::items_said))]
pub fn shown_text_is_read()
    ensures items { (program : Observer) → HaveWords (shown_lines program) →
        items_in (text program) ≡ line_items 1 (shown_lines program) }
{}

/// The lines of a well-formed program of version 2 can be read if its own names and constants can
/// be written.
#[tactic(auto, using(crate::proofs::Words::program_words))]
pub fn programs_with_words_are_readable()
    ensures words { (program : Observer) → HasLayout program → IsWellFormed program →
        program.version ≡ 2 → HasOwnWords program → HaveWords (shown_lines program) }
{}

/// The names and constants of an image, simplified or not, can be written, since they are names and
/// numbers of the language in its text.
#[tactic(auto, using(crate::proofs::Images::image_words, crate::proofs::Images::simple_words))]
pub fn images_have_words()
    ensures plain { (source : List ℕ) (columns : Places) → first_refusal source ≡ None →
        HasOwnWords (compile_over source columns) }
    ensures simple { (source : List ℕ) (columns : Places) → first_refusal source ≡ None →
        HasOwnWords (compile_simplified_over source columns) }
{}

/// The shown text of an image, simplified or not, compiles to the image: if the shown text has no
/// fault, its image over the columns that the program stores is the program itself.
#[tactic(auto, using(crate::proofs::Images::image_returns, crate::proofs::Images::simple_returns))]
pub fn shown_images_return()
    ensures plain { (source : List ℕ) (columns : Places) (program : Observer) →
        first_refusal source ≡ None → program ≡ compile_over source columns →
        HasLayout program → IsWellFormed program → first_refusal (text program) ≡ None →
        compile_over (text program) (stored_columns program) ≡ program }
    ensures simple { (source : List ℕ) (columns : Places) (program : Observer) →
        first_refusal source ≡ None → program ≡ compile_simplified_over source columns →
        HasLayout program → IsWellFormed program → first_refusal (text program) ≡ None →
        compile_over (text program) (stored_columns program) ≡ program }
{}

/// The text of an image, simplified or not, has no fault if the image is within the limits of
/// programs that can be shown.
#[tactic(auto, using(crate::proofs::ShownImages::image_passes, crate::proofs::ShownImages::simple_passes))]
pub fn shown_images_have_no_fault()
    ensures plain { (source : List ℕ) (columns : Places) (program : Observer) →
        first_refusal source ≡ None → program ≡ compile_over source columns →
        HasLayout program → IsWellFormed program → show_fault program ≡ None →
        first_refusal (text program) ≡ None }
    ensures simple { (source : List ℕ) (columns : Places) (program : Observer) →
        first_refusal source ≡ None → program ≡ compile_simplified_over source columns →
        HasLayout program → IsWellFormed program → show_fault program ≡ None →
        first_refusal (text program) ≡ None }
{}
