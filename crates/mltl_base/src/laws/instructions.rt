//! Laws of instructions: they unfold to the subformulas of a specification, and report its meaning.

ghost use Rattle.mltl_base.specs.Atoms.{Row};
ghost use Rattle.mltl_base.specs.Formula.{Core};
ghost use Rattle.mltl_base.specs.Programs.{Expression, atoms, cores_of, expressions, formulas, output_names, outputs, past_formulas};
ghost use Rattle.mltl_base.specs.Reports.{Output, reports};
ghost use Rattle.mltl_base.specs.Subformulas.{Asked, HasListsOf, IsTensed, bz_expressions, bz_list, core_output, ft_list, pt_list, same, same_expression, subformulas, unfolded_outputs};
ghost use Rattle.mltl_base.specs.declared.interval.Engine.{Engine as Evaluator};
ghost use Rattle.mltl_base.specs.declared.interval.Engine.TheVariants.{Ft as Future, Pt as Past};
ghost use Rattle.mltl_base.specs.declared.program.Program.{Program as Observer};
ghost use Rattle.mltl_base.specs.declared.report.Style.{Style as Form};
ghost use Rattle.std.specs.Prelude.{◌≡◌, List, Decides, All, map};

/// The tests that share subformulas and expressions are true exactly if two are equal.
#[tactic(auto, using(crate::proofs::Sameness::same_decides, crate::proofs::Sameness::same_expression_decides))]
pub fn sharing_tests_decide()
    ensures formulas { (p q : Core) → Decides (same p q) (p ≡ q) }
    ensures expressions { (d e : Expression) → Decides (same_expression d e) (d ≡ e) }
{}

/// The instructions of a specification unfold to its distinct expressions and subformulas.
#[tactic(auto, using(crate::proofs::Graphs::bz_list_unfolds, crate::proofs::Graphs::ft_list_unfolds, crate::proofs::Graphs::pt_list_unfolds))]
pub fn instructions_unfold()
    ensures bz { (outs : List Asked) → expressions (bz_list outs) ≡ bz_expressions outs }
    ensures ft { (outs : List Asked) → All IsTensed outs →
        formulas (atoms (bz_list outs)) (ft_list outs) ≡ subformulas Future outs }
    ensures pt { (outs : List Asked) → All IsTensed outs →
        past_formulas (atoms (bz_list outs)) (pt_list outs) ≡ subformulas Past outs }
{}

/// A program with the lists of a specification has its outputs, over their core forms, and its
/// reports.
#[tactic(auto, using(crate::proofs::Graphs::program_unfolds, crate::proofs::Graphs::program_names, crate::proofs::Graphs::program_tells))]
pub fn program_means_its_specification()
    ensures outputs { (program : Observer) (outs : List Asked) → HasListsOf outs program →
        All IsTensed outs →
        outputs program ≡ map (λ asked. core_output asked.output) outs }
    ensures names { (program : Observer) (outs : List Asked) → HasListsOf outs program →
        output_names program ≡ map (λ asked. asked.name) outs }
    ensures reports { (style : Form) (program : Observer) (outs : List Asked) (rows : List Row) →
        HasListsOf outs program → All IsTensed outs →
        reports style (outputs program) rows ≡ reports style (map (λ asked. asked.output) outs) rows }
{}

/// A program with the lists of a specification is the program of its outputs: its instructions
/// unfold, in order, to the distinct expressions and subformulas of the formulas of these outputs.
#[tactic(auto, using(crate::proofs::Returning::lists_return, crate::proofs::Returning::subformulas_return, crate::proofs::Returning::expressions_return, crate::proofs::Returning::tensed_return))]
pub fn program_is_that_of_its_outputs()
    ensures tensed { (program : Observer) (outs : List Asked) → HasListsOf outs program →
        All IsTensed outs → All IsTensed (unfolded_outputs program) }
    ensures lists { (program : Observer) (outs : List Asked) → HasListsOf outs program →
        All IsTensed outs → HasListsOf (unfolded_outputs program) program }
    ensures subformulas { (program : Observer) (outs : List Asked) (e : Evaluator) →
        HasListsOf outs program → All IsTensed outs →
        subformulas e (unfolded_outputs program) ≡ cores_of program e }
    ensures expressions { (program : Observer) (outs : List Asked) → HasListsOf outs program →
        All IsTensed outs → bz_expressions (unfolded_outputs program) ≡ expressions program.bz }
{}
