//! Laws on the delays of instructions and formulas.

ghost use Rattle.std.specs.Prelude.{◌≡◌, List, map};
ghost use Rattle.mltl_base.specs.Atoms.{Atom};
ghost use Rattle.mltl_base.specs.Formula.{bpd, core_wpd};
ghost use Rattle.mltl_base.specs.Programs.{formulas};
ghost use Rattle.mltl_base.specs.Queues.{best_delays, worst_delays};

use mltl_base::FtOp;

/// The delays of instructions are the delays of the formulas that they unfold to, whatever atoms
/// they load.
pub fn delays_of_formulas()
    ensures best { (loaded : List Atom) (ops : List FtOp) →
        best_delays ops ≡ map bpd (formulas loaded ops) }
    ensures worst { (loaded : List Atom) (ops : List FtOp) →
        worst_delays ops ≡ map core_wpd (formulas loaded ops) }
{}
