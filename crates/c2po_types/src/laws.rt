//! Laws of the definitions of checked specifications: each law is the contract of a function with
//! an empty body.

ghost use Rattle.std.specs.Prelude.{◌≡◌, ◌≤◌, None, List as Seq, length};
ghost use Rattle.mltl_base.specs.declared.limits.TheConstants.{MAX_SIGNALS};
ghost use Rattle.c2po_ast.specs.ItemShape.{ItemShape};
ghost use Rattle.c2po_types.specs.FirstFault.{first_fault};
ghost use Rattle.c2po_types.specs.Signals.{signals_of};
ghost use Rattle.mltl_base.specs.Kinds.{HaveOwnNames};

/// The signals of a specification without a fault have distinct names, and there are no more of
/// them than a specification may have.
#[tactic(auto, using(crate::proofs::OwnNames::own_names, crate::proofs::OwnNames::few_signals))]
pub fn signals_are_told_apart()
    ensures names { (items : Seq ItemShape) → first_fault items ≡ None
        → HaveOwnNames (signals_of items) }
    ensures few { (items : Seq ItemShape) → first_fault items ≡ None
        → length (signals_of items) ≤ MAX_SIGNALS }
{}
