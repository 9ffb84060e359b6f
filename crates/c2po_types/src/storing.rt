//! Stored values of definitions.

ghost use Rattle.std.specs.Prelude.{◌≡◌, ◌+◌, ◌<◌, ◌≤◌, IfOk, IfErr, OnOk};
ghost use Rattle.c2po_ast.specs.Shape.{shape, shapes};
ghost use Rattle.c2po_types.specs.declared.unfold_fault.UnfoldFault.TheVariants.{Heavy};
ghost use Rattle.c2po_types.specs.Environment.{Env, value_of, values_of};
ghost use Rattle.c2po_types.specs.Holding.{Fits, HoldAll, Holds, IsLater};
ghost use Rattle.c2po_types.specs.Weights.{parts_weight, weight};

use crate::fact::Fact;
use crate::room::Room;
use crate::summary::Summary;
use crate::unfold_fault::deeper;
use crate::values::{Stored, Whole};
use crate::variables::{Head, Site};
use crate::{UnfoldFault, Unfolding};
use c2po_ast::Expr;
use mltl_base::List;
use std::alloc::Global;

impl Unfolding {
    /// Stores the value of an expression: each part of a struct's value or of a set, and the
    /// summary of an operator.
    #[cycle(storing)]
    pub(crate) fn store(
        &mut self,
        alloc: Global,
        at: Site<'_>,
        e: &Expr,
        room: Room,
    ) -> Result<Stored, UnfoldFault>
        ensures later { OnOk result (IsLater self.old self.new) }
        ensures light { IfOk result (λ s. s.weight ≤ room) }
        ensures holds { (env : Env) → Fits self.old at.entry.scope.now env
            → IfOk result (λ s. Holds self.new s (value_of (shape e.now) env)) }
        ensures heavy { (env : Env) → Fits self.old at.entry.scope.now env
            → IfErr result (λ why. why ≡ Heavy → room < weight (value_of (shape e.now) env)) }
    {
        let depth = deeper(at.depth)?;
        match self.head(depth, at.scope, e)? {
            Head::Nothing(..) => Ok(self.add_leaf(Summary::token(Fact::truth(), room)?)?),
            Head::Held(stored) => {
                room.less(stored.weight)?;
                Ok(stored)
            }
            Head::Struct(scope, _, name, parts) => {
                let within = Site { depth, scope };
                let (members, weight) = self.store_all(alloc, within, parts, room)?;
                Ok(self.add_parts(Whole::Struct(name.copy()), members, weight)?)
            }
            Head::Set(scope, _, members) => {
                let within = Site { depth, scope };
                let (members, weight) = self.store_all(alloc, within, members, room)?;
                Ok(self.add_parts(Whole::Set, members, weight)?)
            }
            Head::Leaf(scope, e) => {
                let found = self.operator(Site { depth, scope }, e, room)?;
                Ok(self.add_leaf(found)?)
            }
        }
    }

    /// Stores the values of expressions in order, and returns them with their weight plus 1.
    #[cycle(storing)]
    fn store_all(
        &mut self,
        alloc: Global,
        at: Site<'_>,
        es: &[Expr],
        room: Room,
    ) -> Result<(List<Stored>, u32), UnfoldFault>
        ensures later { OnOk result (IsLater self.old self.new) }
        ensures light { IfOk result (λ r. r.1 ≤ room) }
        ensures holds { (env : Env) → Fits self.old at.entry.scope.now env
            → IfOk result (λ r. HoldAll self.new r.0 (values_of (shapes es.now) env)) }
        ensures weight { (env : Env) → Fits self.old at.entry.scope.now env
            → IfOk result (λ r. r.1 ≡ 1 + parts_weight (values_of (shapes es.now) env)) }
        ensures heavy { (env : Env) → Fits self.old at.entry.scope.now env
            → IfErr result (λ why. why ≡ Heavy
            → room < 1 + parts_weight (values_of (shapes es.now) env)) }
    {
        let mut left = room.less(1)?;
        let mut members = List::new(alloc);
        for e in es {
            let member = self.store(alloc, at, e, left)?;
            left = left.without(member.weight);
            members.push(member)?;
        }
        Ok((members, room.get() - left.get()))
    }
}
