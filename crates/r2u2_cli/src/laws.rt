//! The law of the demo's text: the contract of a function with an empty body.

ghost use Rattle.std.specs.Prelude.{◌≡◌, None, IsOk};
ghost use Rattle.c2po_compile.specs.Compiled.{compile_text, outputs_in};
ghost use Rattle.r2u2_cli.specs.Text.{demo_outputs};

use crate::demo::text::DEMO_TEXT;

/// The demo's text is compiled, and has these formulas.
pub fn demo_text_compiles()
    ensures compiles { IsOk (compile_text DEMO_TEXT.now None) }
    ensures outputs { outputs_in DEMO_TEXT.now ≡ demo_outputs }
{}
