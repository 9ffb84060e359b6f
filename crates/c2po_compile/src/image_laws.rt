//! Laws of images: each law is the contract of a function with an empty body.

ghost use Rattle.std.specs.Prelude.{◌≡◌, List as Members, All, map};
ghost use Rattle.mltl_base.specs.Atoms.{Row};
ghost use Rattle.mltl_base.specs.declared.program.Columns.{Columns as Places};
ghost use Rattle.mltl_base.specs.declared.program.Program.{Program as Observer};
ghost use Rattle.mltl_base.specs.declared.report.Style.{Style as Form};
ghost use Rattle.mltl_base.specs.Programs.{output_names, outputs};
ghost use Rattle.mltl_base.specs.Reports.{reports};
ghost use Rattle.mltl_base.specs.Subformulas.{Asked, IsTensed, core_output};
ghost use Rattle.c2po_ast.specs.declared.nodes.Expanded.{Expanded as Spec};
ghost use Rattle.c2po_ast.specs.Outputs.{asked, asked_in, asked_over};
ghost use Rattle.mltl_base.specs.declared.signal.Signal.{Signal as Input};
ghost use Rattle.obs_verify.specs.Layout.{HasLayout};
ghost use Rattle.obs_verify.specs.WellFormed.{IsWellFormed};
ghost use Rattle.c2po_compile.specs.Conditions.{IsBuildable};
ghost use Rattle.c2po_compile.specs.Images.{IsImageOf};
ghost use Rattle.c2po_compile.specs.BuildLimits.{IsWithinLimits};

/// A specification that can be built within the limits has one image, in which the verifier finds
/// no fault.
#[tactic(auto, using(crate::proofs::Building::image_well_formed, crate::proofs::Building::image_once))]
pub fn images_are_well_formed()
    ensures well_formed { (spec : Spec) (signals : Members Input) (columns : Places)
        (program : Observer)
        → IsBuildable spec signals columns → IsWithinLimits (asked_in columns.of_signal spec)
        → IsImageOf signals columns (asked spec) program → IsWellFormed program }
    ensures layout { (spec : Spec) (signals : Members Input) (columns : Places)
        (program : Observer)
        → IsBuildable spec signals columns → IsWithinLimits (asked_in columns.of_signal spec)
        → IsImageOf signals columns (asked spec) program → HasLayout program }
    ensures one { (signals : Members Input) (columns : Places) (outs : Members Asked)
        (p q : Observer)
        → IsImageOf signals columns outs p → IsImageOf signals columns outs q → p ≡ q }
{}

/// An image has the outputs of its specification over columns, in their core forms, with the same
/// names and the same reports of all rows.
#[tactic(auto, using(crate::proofs::Tenses::image_unfolds, crate::proofs::Tenses::image_names, crate::proofs::Tenses::image_tells))]
pub fn images_tell_their_outputs()
    ensures outputs { (signals : Members Input) (columns : Places) (outs : Members Asked)
        (program : Observer)
        → All IsTensed outs → IsImageOf signals columns outs program
        → outputs program
        ≡ map (λ out. core_output out.output) (map (asked_over columns.of_signal) outs) }
    ensures names { (signals : Members Input) (columns : Places) (outs : Members Asked)
        (program : Observer)
        → IsImageOf signals columns outs program
        → output_names program ≡ map (λ out. out.name) outs }
    ensures reports { (style : Form) (signals : Members Input) (columns : Places)
        (outs : Members Asked) (program : Observer) (rows : Members Row)
        → All IsTensed outs → IsImageOf signals columns outs program
        → reports style (outputs program) rows
        ≡ reports style (map (λ out. out.output)
        (map (asked_over columns.of_signal) outs)) rows }
{}
