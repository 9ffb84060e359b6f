//! Specifications without a fault.

ghost use Rattle.std.specs.Prelude.{◌≡◌, ◌≤◌, None, length};
ghost use Rattle.mltl_base.specs.declared.limits.TheConstants.{MAX_SIGNALS};
ghost use Rattle.mltl_base.specs.Kinds.{HaveOwnNames};
ghost use Rattle.c2po_ast.specs.ItemShape.{spec_shape};
ghost use Rattle.c2po_ast.specs.Names.{ArePlainItems};
ghost use Rattle.c2po_types.specs.FirstFault.{first_fault};
ghost use Rattle.c2po_types.specs.Signals.{signals_of};

use crate::Signal;
use c2po_ast::SpecTree;
use mltl_base::List;
use std::marker::Model;

/// A specification without a fault, which contracts see as its tree.
#[derive(Drop)]
pub struct TypedSpec {
    tree: SpecTree,
    signals: List<Signal>,
}

impl Model for TypedSpec {
    ghost use Rattle.c2po_ast.specs.declared.item.SpecTree.{SpecTree as Tree};
    ghost use Rattle.c2po_ast.specs.contracts.item.TypeTree as types;
    ghost use Rattle.c2po_ast.specs.contracts.tree.Expr as exprs;
    ghost use Rattle.c2po_ast.specs.ItemShape.{spec_shape};
    ghost use Rattle.c2po_types.specs.Faultless.{IsFaultless};
    ghost use Rattle.std.specs.Coded.{codes};

    ghost Value = { Tree };

    ghost coded = { Prim.hlevel (codes, types.the_row.coded, exprs.the_row.coded) };

    ghost view = { λ spec. spec.tree };

    ghost invariant = { λ spec. IsFaultless (spec_shape spec.tree) spec.signals };
}

impl TypedSpec {
    /// Makes the specification of a tree without a fault and of its signals.
    pub(crate) fn of(tree: SpecTree, signals: List<Signal>) -> TypedSpec
        requires faultless { first_fault (spec_shape tree) ≡ None }
        requires plain { ArePlainItems (spec_shape tree) }
        requires signals { signals ≡ signals_of (spec_shape tree) }
        ensures { result ≡ tree }
    {
        TypedSpec { tree, signals }
    }

    /// Returns the tree, which has no fault.
    pub fn tree(&self) -> &SpecTree
        ensures tree { result.now ≡ self.now }
        ensures faultless { first_fault (spec_shape self.now) ≡ None }
        ensures plain { ArePlainItems (spec_shape self.now) }
    {
        &self.tree
    }

    /// Returns the signals, which have distinct names, in the order of declaration.
    pub fn signals(&self) -> &List<Signal>
        ensures signals { result.now ≡ signals_of (spec_shape self.now) }
        ensures named { HaveOwnNames result.now }
        ensures few { length result.now ≤ MAX_SIGNALS }
        ensures plain { ArePlainItems (spec_shape self.now) }
    {
        &self.signals
    }
}
