//! The law of program files that are images of specifications: the contract of a function with an
//! empty body.

ghost use Rattle.std.specs.Prelude.{◌≡◌, List as Seq, Ok, Option as Maybe, ℕ};
ghost use Rattle.mltl_base.specs.Atoms.{Row};
ghost use Rattle.mltl_base.specs.declared.program.Columns.{Columns as Places};
ghost use Rattle.mltl_base.specs.declared.program.Program.{Program as Observer};
ghost use Rattle.mltl_base.specs.declared.report.Style.{Style};
ghost use Rattle.c2po_compile.specs.ImageFiles.{IsFirstImageFile, IsImageFile};
ghost use Rattle.c2po_compile.specs.Simplified.{IsSimpleImageFile};
ghost use Rattle.tool_words.specs.declared.file_kind.FileKind.TheVariants.{Program};
ghost use Rattle.r2u2_cli.specs.ProgramBy.{program_by};
ghost use Rattle.r2u2_cli.specs.Formulas.{TellsImage, TellsSimple};
ghost use Rattle.r2u2_cli.specs.Settled.{TellsText};

/// A program file that is the image of a specification reports the specification's plain formulas,
/// under its names.
///
/// In version 2 these are over the columns that the header of the trace names, or without a header
/// over the image's own columns. Images in simplified form report them too: each word is settled
/// for the plain formula and comes within its delay. In version 1, which stores no signals, they
/// are over the image's own columns under any header.
pub fn images_tell_their_texts()
    ensures image { (style : Style) (text file : Seq ℕ) (own : Places) (header : Maybe (Seq ℕ))
        (program : Observer) (rows : Seq Row) → IsImageFile text own file →
        program_by Program file header ≡ Ok program →
        TellsImage style text own header program rows }
    ensures simple_image { (style : Style) (text file : Seq ℕ) (own : Places)
        (header : Maybe (Seq ℕ)) (program : Observer) (rows : Seq Row) →
        IsSimpleImageFile text own file → program_by Program file header ≡ Ok program →
        TellsSimple style text own header program rows }
    ensures first_image { (style : Style) (text file : Seq ℕ) (own : Places)
        (header : Maybe (Seq ℕ)) (program : Observer) (rows : Seq Row) → IsFirstImageFile text own file →
        program_by Program file header ≡ Ok program → TellsText style text own program rows }
{}
