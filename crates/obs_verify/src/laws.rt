//! Laws of well-formed programs: each is the contract of an empty function.

ghost use Rattle.std.specs.Prelude.{◌≡◌, [], All, length};
ghost use Rattle.mltl_base.specs.declared.program.Program.{Program as Observer};
ghost use Rattle.mltl_base.specs.Programs.{output_names, outputs};
ghost use Rattle.mltl_base.specs.Queues.{NamesInstructions};
ghost use Rattle.obs_verify.specs.Layout.{HasLayout};
ghost use Rattle.obs_verify.specs.Running.{RunsFuture, RunsPast};
ghost use Rattle.obs_verify.specs.Soundness.{SoundOps};
ghost use Rattle.obs_verify.specs.Upgrade.{up};
ghost use Rattle.obs_verify.specs.WellFormed.{IsWellFormed};

/// A well-formed program runs on both engines, and its outputs report instructions that exist.
#[tactic(auto, using(crate::proofs::RunLaws::runs_future, crate::proofs::RunLaws::runs_past, crate::proofs::RunLaws::all_named))]
pub fn well_formed_programs_run()
    ensures future { (program : Observer) → HasLayout program
        → IsWellFormed program → RunsFuture program }
    ensures past { (program : Observer) → HasLayout program
        → IsWellFormed program → RunsPast program }
    ensures outputs { (program : Observer) → IsWellFormed program
        → All (NamesInstructions (length program.ft) (length program.pt)) program.outs }
{}

/// The Booleanizer can compute a well-formed program in 64 bits on every row that fits it.
#[tactic(auto, using(crate::proofs::SoundOps::all_sound))]
pub fn well_formed_programs_are_sound()
    ensures { (program : Observer) → IsWellFormed program → SoundOps program.width [] program.bz }
{}

/// A program has the same reports in version 2.
#[tactic(auto, using(crate::proofs::WellRaised::outputs_raised, crate::proofs::WellRaised::names_raised))]
pub fn upgraded_programs_tell_the_same()
    ensures outputs { (program : Observer) → outputs (up program) ≡ outputs program }
    ensures names { (program : Observer) → output_names (up program) ≡ output_names program }
{}
