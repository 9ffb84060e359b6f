//! Laws of the definitions of this crate: each law is the contract of a function with an empty
//! body.

ghost use Rattle.mltl_base.specs.Atoms.{Term};
ghost use Rattle.mltl_base.specs.Formula.{Formula};
ghost use Rattle.c2po_ast.specs.Nodes.{AreSound, Grows, Has, IsFormed, IsFormula, IsNumber, formula, node_formula, number, node_term, tree_of, trees};
ghost use Rattle.c2po_ast.specs.declared.nodes.Plain.{Plain as Node};
ghost use Rattle.std.specs.Prelude.{◌≡◌, ℕ, List as Seq, [], ◌∷◌, ◌++◌, length, slice_get};

/// A node that is appended unfolds over the earlier nodes, which stay as they are.
#[tactic(auto, using(crate::proofs::Pushing::has_new, crate::proofs::Pushing::grows_append, crate::proofs::Pushing::sound_nil, crate::proofs::Pushing::sound_push))]
pub fn nodes_grow()
    ensures new { (nodes : Seq Node) (node : Node)
        → Has (nodes ++ node ∷ []) (length nodes) (tree_of (trees nodes) node) }
    ensures kept { (nodes more : Seq Node) → Grows nodes (nodes ++ more) }
    ensures none { (signals : ℕ) → AreSound signals [] }
    ensures sound { (signals : ℕ) (nodes : Seq Node) (node : Node) → AreSound signals nodes
        → IsFormed signals (trees nodes) node → AreSound signals (nodes ++ node ∷ []) }
{}

/// A node that unfolds to an integer or a formula can be an operand of that kind, and represents
/// its integer or formula.
#[tactic(auto, using(crate::proofs::Pushing::number_at, crate::proofs::Pushing::is_number, crate::proofs::Pushing::formula_in_place, crate::proofs::Pushing::is_formula))]
pub fn operands_unfold()
    ensures number { (nodes : Seq Node) (n : ℕ) (a : Term) → Has nodes n (number a)
        → node_term (trees nodes) n ≡ a }
    ensures is_number { (nodes : Seq Node) (n : ℕ) (a : Term) → Has nodes n (number a)
        → IsNumber (slice_get (trees nodes) n) }
    ensures formula { (nodes : Seq Node) (n : ℕ) (p : Formula) → Has nodes n (formula p)
        → node_formula (trees nodes) n ≡ p }
    ensures is_formula { (nodes : Seq Node) (n : ℕ) (p : Formula) → Has nodes n (formula p)
        → IsFormula (slice_get (trees nodes) n) }
{}
