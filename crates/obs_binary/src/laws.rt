//! Laws of program files: each is the contract of an empty function.

ghost use Rattle.std.specs.Prelude.{◌≡◌, Ok};
ghost use Rattle.mltl_base.specs.declared.program.Program.{Program as Observer};
ghost use Rattle.obs_binary.specs.Layout.{IsEncodable, spelling};
ghost use Rattle.obs_verify.specs.Upgrade.{up};
ghost use Rattle.obs_verify.specs.WellFormed.{IsWellFormed};
ghost use Rattle.obs_binary.specs.Faults.{opened};
ghost use Rattle.obs_binary.specs.Names.{NamesFit};

/// The bytes of a well-formed program are opened as that program.
#[tactic(auto, using(crate::proofs::Opening::found_again))]
pub fn images_open()
    ensures { (program : Observer) → IsEncodable program → IsWellFormed program
        → opened (spelling program) ≡ Ok program }
{}

/// The names of a program can also be written in version 2.
pub fn upgraded_names_fit()
    ensures { (program : Observer) → IsWellFormed program → NamesFit program
        → NamesFit (up program) }
{}
