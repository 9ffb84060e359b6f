//! Laws of texts and compiled programs: each law is the contract of a function with an empty body.

ghost use Rattle.std.specs.Prelude.{◌≡◌, ◌≤◌, ◌↔◌, ℕ, List as Seq, Err, None, Ok, Option as Maybe, Some, map, slice_get};
ghost use Rattle.mltl_base.specs.Atoms.{Row};
ghost use Rattle.mltl_base.specs.Programs.{output_names, outputs};
ghost use Rattle.mltl_base.specs.Reports.{Output as Told, delay, reports};
ghost use Rattle.mltl_base.specs.declared.program.Columns.{Columns as Places};
ghost use Rattle.mltl_base.specs.declared.program.Program.{Program as Observer};
ghost use Rattle.mltl_base.specs.declared.report.Style.{Style};
ghost use Rattle.c2po_ast.specs.ItemShape.{ItemShape};
ghost use Rattle.c2po_compile.specs.Front.{IsRefusedBy, Says, first_refusal, items_in};
ghost use Rattle.c2po_compile.specs.Image.{plain_outputs};
ghost use Rattle.c2po_compile.specs.ImageFiles.{CanMove, compile_and_move};
ghost use Rattle.c2po_compile.specs.Compiled.{IsImageUnder, columns_by, compile_text, outputs_in, signals_in};
ghost use Rattle.c2po_compile.specs.Simplified.{CanMoveSimple, TellsSettled, compile_simplified_and_move, compile_simplified, slots_in};
ghost use Rattle.c2po_compile.specs.declared.fault.CompileFault.{CompileFault as Fault};

/// A text that isn't refused says the items of `items_in` and no others by the rules of the
/// grammar. The first refusal of a text is by one of these rules.
#[tactic(auto, using(crate::proofs::ByRules::refused_by, crate::proofs::ByRules::says))]
pub fn texts_say_what_rules_say()
    ensures says { (text : Seq ℕ) → first_refusal text ≡ None → Says text (items_in text) }
    ensures alone { (text : Seq ℕ) (items : Seq ItemShape) → Says text items →
        (first_refusal text ≡ None) × (items ≡ items_in text) }
    ensures refused { (text : Seq ℕ) (fault : Fault) →
        first_refusal text ≡ Some fault → IsRefusedBy text fault }
{}

/// The program of a text and a header line is the image of the text over the columns of its
/// signals.
///
/// Its reports are the reports of the text's plain outputs over those columns, for all rows in
/// either style, with the same worst-case delays and names.
pub fn programs_tell_their_texts()
    ensures image { (text : Seq ℕ) (header : Maybe (Seq ℕ)) (program : Observer) →
        compile_text text header ≡ Ok program → IsImageUnder text header program }
    ensures reports { (style : Style) (text : Seq ℕ) (header : Maybe (Seq ℕ)) (columns : Places)
        (program : Observer) (rows : Seq Row) →
        compile_text text header ≡ Ok program → columns_by (signals_in text) header ≡ Ok columns →
        reports style (outputs program) rows ≡
        reports style (plain_outputs columns (outputs_in text)) rows }
    ensures delays { (text : Seq ℕ) (header : Maybe (Seq ℕ)) (columns : Places)
        (program : Observer) →
        compile_text text header ≡ Ok program → columns_by (signals_in text) header ≡ Ok columns →
        map delay (outputs program) ≡ map delay (plain_outputs columns (outputs_in text)) }
    ensures names { (text : Seq ℕ) (header : Maybe (Seq ℕ)) (columns : Places)
        (program : Observer) →
        compile_text text header ≡ Ok program → columns_by (signals_in text) header ≡ Ok columns →
        output_names program ≡ map (λ asked. asked.name) (outputs_in text) }
{}

/// An image whose signals are moved to other columns has the reports of its text's plain outputs
/// over those columns, with the same names.
pub fn moved_images_tell_their_texts()
    ensures reports { (style : Style) (text : Seq ℕ) (old new : Places) (rows : Seq Row) →
        CanMove text old new →
        reports style (outputs (compile_and_move text old new)) rows ≡
        reports style (plain_outputs new (outputs_in text)) rows }
    ensures names { (text : Seq ℕ) (old new : Places) →
        output_names (compile_and_move text old new) ≡ map (λ asked. asked.name) (outputs_in text) }
{}

/// A program in simplified form needs no more slots and boxes than the plain program. A text is
/// refused in simplified form exactly if it is refused in plain form, for the same fault.
pub fn simple_programs_need_no_more()
    ensures slots { (text : Seq ℕ) (header : Maybe (Seq ℕ)) (simple plain : Observer) →
        compile_simplified text header ≡ Ok simple → compile_text text header ≡ Ok plain →
        slots_in simple ≤ slots_in plain }
    ensures refused { (text : Seq ℕ) (header : Maybe (Seq ℕ)) (fault : Fault) →
        (compile_simplified text header ≡ Err fault) ↔ (compile_text text header ≡ Err fault) }
{}

/// A program in simplified form reports for each output verdicts that are settled for the plain
/// output of its text, within that output's worst-case delay. So does its image whose signals are
/// moved to other columns.
pub fn simple_programs_tell_plain_outputs()
    ensures told { (style : Style) (text : Seq ℕ) (header : Maybe (Seq ℕ)) (columns : Places)
        (program : Observer) (rows : Seq Row) (k : ℕ) (o : Told) →
        compile_simplified text header ≡ Ok program →
        columns_by (signals_in text) header ≡ Ok columns →
        slice_get (plain_outputs columns (outputs_in text)) k ≡ Some o →
        TellsSettled style program k o rows }
    ensures moved { (style : Style) (text : Seq ℕ) (old new : Places) (rows : Seq Row) (k : ℕ)
        (o : Told) → CanMoveSimple text old new →
        slice_get (plain_outputs new (outputs_in text)) k ≡ Some o →
        TellsSettled style (compile_simplified_and_move text old new) k o rows }
    ensures names { (text : Seq ℕ) (header : Maybe (Seq ℕ)) (columns : Places)
        (program : Observer) →
        compile_simplified text header ≡ Ok program →
        columns_by (signals_in text) header ≡ Ok columns →
        output_names program ≡ map (λ asked. asked.name) (outputs_in text) }
    ensures moved_names { (text : Seq ℕ) (old new : Places) →
        output_names (compile_simplified_and_move text old new)
        ≡ map (λ asked. asked.name) (outputs_in text) }
{}
