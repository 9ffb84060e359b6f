//! The condition of the verifier.

ghost use Rattle.std.specs.Prelude.{◌↔◌, IsTrue};
ghost use Rattle.obs_verify.specs.Layout.{HasLayout, HasVersion};

use mltl_base::Program;

/// The least number that doesn't fit into 32 bits.
const COUNTS: usize = 4_294_967_296;

/// Returns true if `verify` accepts the program: it has a size for each instruction of the engines,
/// lists of fewer than 2^32 members, and version 1 without signals or version 2.
pub fn has_layout(program: &Program) -> bool
    ensures { IsTrue result ↔ HasLayout program.now }
{
    program.sizes.ft.len() == program.ft.len()
        && program.sizes.pt.len() == program.pt.len()
        && program.bz.len() < COUNTS
        && program.ft.len() < COUNTS
        && program.pt.len() < COUNTS
        && program.outs.len() < COUNTS
        && program.signals.len() < COUNTS
        && has_version(program)
}

fn has_version(program: &Program) -> bool
    ensures { IsTrue result ↔ HasVersion program.now }
{
    program.version == 2 || program.version == 1 && program.signals.is_empty()
}
