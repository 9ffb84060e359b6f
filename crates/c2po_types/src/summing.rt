//! Summaries of expressions.

ghost use Rattle.std.specs.Prelude.{◌≡◌, ◌+◌, ◌<◌, ◌≤◌, true, length, map, sum_by, slice_get, Some, None, IfOk, IfErr};
ghost use Rattle.c2po_ast.specs.Shape.{shape, shapes};
ghost use Rattle.c2po_types.specs.Facts.{Tells};
ghost use Rattle.c2po_ast.specs.Nodes.{formula};
ghost use Rattle.c2po_types.specs.declared.unfold_fault.UnfoldFault.TheVariants.{Heavy};
ghost use Rattle.c2po_types.specs.declared.fact.Fact.TheVariants.{Parts};
ghost use Rattle.c2po_types.specs.declared.variables.Head.TheVariants.{Held};
ghost use Rattle.c2po_types.specs.Bodies.{IsOfBody};
ghost use Rattle.c2po_types.specs.Environment.{Env, value_of, values_of};
ghost use Rattle.c2po_types.specs.Heads.{Heads, is_operator};
ghost use Rattle.c2po_types.specs.Operators.{binary_value, bodies_of, body_value, unary_value};
ghost use Rattle.c2po_types.specs.Holding.{Fits, Holds};
ghost use Rattle.c2po_types.specs.Summaries.{IsSummary, gathered};
ghost use Rattle.c2po_types.specs.Values.{Value, counted, formula_of, connected_all, members, tree_in};
ghost use Rattle.c2po_types.specs.Weights.{parts_weight, weight};

use crate::counting::{counted_fact, gates_weight};
use crate::fact::Fact;
use crate::operators::{BinaryOp, Bodies, Operation, UnaryOp, is_operator};
use crate::room::Room;
use crate::summary::Summary;
use crate::unfold_fault::deeper;
use crate::values::{Location, Stored};
use crate::variables::{Head, Scope, Site};
use crate::{UnfoldFault, Unfolding};
use c2po_ast::Expr;
use mltl_base::{CountOp, LogicOp};

/// The bodies of a quantifier together: their number, the fact of their disjunction from the last
/// to the first, and the room that they leave.
#[derive(Clone, Copy)]
pub(crate) struct Gathered {
    count: usize,
    fact: Fact,
    left: Room,
}

/// Returns the stored value of a head, if the head is one.
fn held_in(head: &Head<'_>) -> Option<Stored>
    ensures { (s : Stored) → result ≡ Some s → head.now ≡ Held s }
{
    match head {
        Head::Held(stored) => Some(*stored),
        _ => None,
    }
}

/// The summary of a quantifier's body, and the value of its variable, if that is a stored value.
#[derive(Clone, Copy)]
pub(crate) struct BodyFact {
    member: Option<Stored>,
    summary: Summary,
}

impl BodyFact {
    /// Makes the summary of a body whose variable isn't a stored value.
    fn none() -> BodyFact
        ensures { result.member ≡ None }
    {
        BodyFact {
            member: None,
            summary: Summary::none(),
        }
    }

    /// Returns `true` if the value of the variable is this head, a stored value.
    fn is_of(&self, head: &Head<'_>) -> bool
        ensures { result ≡ true
            → (s : Stored) × (self.now.member ≡ Some s) × (head.now ≡ Held s) }
    {
        match (self.member, head) {
            (Some(member), Head::Held(stored)) => member.is(*stored),
            _ => false,
        }
    }
}

impl Unfolding {
    /// Returns the fact of a stored value.
    fn held_fact(&self, stored: Stored) -> Fact
        ensures { (v : Value) → Holds self.now stored v → Tells result (tree_in v) }
    {
        let Location::Leaf(i) = stored.location else {
            return Fact::Parts;
        };
        match self.facts.as_slice().get(i as usize) {
            Some(fact) => *fact,
            None => Fact::Parts,
        }
    }

    /// Returns the summary of a stored value.
    fn held(&self, stored: Stored) -> Summary
        ensures weight { result.weight ≡ stored.weight }
        ensures holds { (v : Value) → Holds self.now stored v → IsSummary result v }
    {
        let fact = self.held_fact(stored);
        Summary {
            weight: stored.weight,
            fact,
        }
    }

    /// Returns the summary of the value of an expression.
    #[cycle(summing)]
    pub(crate) fn summary(&self, at: Site<'_>, e: &Expr, room: Room) -> Result<Summary, UnfoldFault>
        ensures light { IfOk result (λ s. s.weight ≤ room) }
        ensures holds { (env : Env) → Fits self.now at.entry.scope.now env
            → IfOk result (λ s. IsSummary s (value_of (shape e.now) env)) }
        ensures heavy { (env : Env) → Fits self.now at.entry.scope.now env
            → IfErr result (λ why. why ≡ Heavy → room < weight (value_of (shape e.now) env)) }
    {
        let depth = deeper(at.depth)?;
        if is_operator(e) {
            let within = Site {
                depth,
                scope: at.scope,
            };
            return self.operator(within, e, room);
        }
        match self.head(depth, at.scope, e)? {
            Head::Nothing(..) => Summary::token(Fact::truth(), room),
            Head::Held(stored) => {
                room.less(stored.weight)?;
                Ok(self.held(stored))
            }
            Head::Struct(scope, _, _, parts) => {
                self.parts_summary(Site { depth, scope }, parts, room)
            }
            Head::Set(scope, _, members) => {
                self.parts_summary(Site { depth, scope }, members, room)
            }
            Head::Leaf(scope, e) => self.operator(Site { depth, scope }, e, room),
        }
    }

    /// Returns the summary of a struct's value or a set with these parts, which weighs 1 more than
    /// its parts.
    #[cycle(summing)]
    fn parts_summary(&self, at: Site<'_>, es: &[Expr], room: Room) -> Result<Summary, UnfoldFault>
        ensures light { IfOk result (λ s. s.weight ≤ room) }
        ensures parts { IfOk result (λ s. s.fact ≡ Parts) }
        ensures weight { (env : Env) → Fits self.now at.entry.scope.now env
            → IfOk result (λ s. s.weight ≡ 1 + parts_weight (values_of (shapes es.now) env)) }
        ensures heavy { (env : Env) → Fits self.now at.entry.scope.now env
            → IfErr result (λ why. why ≡ Heavy
            → room < 1 + parts_weight (values_of (shapes es.now) env)) }
    {
        let mut left = room.less(1)?;
        for e in es {
            let member = self.summary(at, e, left)?;
            left = left.without(member.weight);
        }
        Ok(Summary {
            weight: room.get() - left.get(),
            fact: Fact::Parts,
        })
    }

    /// Returns the summary of a number, a Boolean, an operator or a quantifier.
    #[cycle(summing)]
    pub(crate) fn operator(
        &self,
        at: Site<'_>,
        e: &Expr,
        room: Room,
    ) -> Result<Summary, UnfoldFault>
        ensures light { IfOk result (λ s. s.weight ≤ room) }
        ensures holds { (env : Env) → Fits self.now at.entry.scope.now env
            → is_operator (shape e.now) ≡ true
            → IfOk result (λ s. IsSummary s (value_of (shape e.now) env)) }
        ensures heavy { (env : Env) → Fits self.now at.entry.scope.now env
            → is_operator (shape e.now) ≡ true
            → IfErr result (λ why. why ≡ Heavy → room < weight (value_of (shape e.now) env)) }
    {
        match Operation::of(e) {
            Operation::Number(n) => Summary::token(Fact::constant(n), room),
            Operation::Truth(_) => Summary::token(Fact::truth(), room),
            Operation::Unary(op, a) => self.unary(at, op, a, room),
            Operation::Binary(op, a, b) => self.binary(at, op, a, b, room),
            Operation::Joined(op, bodies) => self.joined_bodies(at, op, bodies, room),
            Operation::Counted(op, number, bodies) => {
                self.counted_bodies(at, op, number, bodies, room)
            }
        }
    }

    /// Returns the summary of an operator over one operand.
    #[cycle(summing)]
    fn unary(&self, at: Site<'_>, op: UnaryOp, a: &Expr, room: Room) -> Result<Summary, UnfoldFault>
        ensures light { IfOk result (λ s. s.weight ≤ room) }
        ensures holds { (env : Env) → Fits self.now at.entry.scope.now env
            → IfOk result (λ s. IsSummary s (unary_value op (value_of (shape a.now) env))) }
        ensures heavy { (env : Env) → Fits self.now at.entry.scope.now env
            → IfErr result (λ why. why ≡ Heavy
            → room < weight (unary_value op (value_of (shape a.now) env))) }
    {
        let left = room.less(1)?;
        let a = self.summary(at, a, left)?;
        Ok(Summary::over_one(op, &a))
    }

    /// Returns the summary of an operator over two operands.
    #[cycle(summing)]
    fn binary(
        &self,
        at: Site<'_>,
        op: BinaryOp,
        a: &Expr,
        b: &Expr,
        room: Room,
    ) -> Result<Summary, UnfoldFault>
        ensures light { IfOk result (λ s. s.weight ≤ room) }
        ensures holds { (env : Env) → Fits self.now at.entry.scope.now env
            → IfOk result (λ s. IsSummary s
            (binary_value op (value_of (shape a.now) env) (value_of (shape b.now) env))) }
        ensures heavy { (env : Env) → Fits self.now at.entry.scope.now env
            → IfErr result (λ why. why ≡ Heavy → room < weight
            (binary_value op (value_of (shape a.now) env) (value_of (shape b.now) env))) }
    {
        let left = room.less(1)?;
        let a = self.summary(at, a, left)?;
        let b = self.summary(at, b, left.without(a.weight))?;
        Ok(Summary::over_two(op, &a, &b))
    }

    /// Returns the summary of the bodies of a quantifier, one for each member of its set, joined by
    /// an operator.
    #[cycle(summing)]
    fn joined_bodies(
        &self,
        at: Site<'_>,
        op: LogicOp,
        bodies: Bodies<'_>,
        room: Room,
    ) -> Result<Summary, UnfoldFault>
        ensures light { IfOk result (λ s. s.weight ≤ room) }
        ensures holds { (env : Env) → Fits self.now at.entry.scope.now env
            → IfOk result (λ s. IsSummary s (connected_all op (bodies_of bodies.entry env))) }
        ensures heavy { (env : Env) → Fits self.now at.entry.scope.now env
            → IfErr result
            (λ why. why ≡ Heavy → room < weight (connected_all op (bodies_of bodies.entry env))) }
    {
        let set = self.head(at.depth, at.scope, bodies.set)?;
        let count = self.member_count(&set);
        if count == 0 {
            return Ok(Summary::none());
        }
        let first = self.body(at, bodies, &set, 0, BodyFact::none(), room)?;
        let mut all = first.summary.as_formula();
        let mut last = first;
        for i in 1..count {
            let left = room.without(all.weight).less(1)?;
            let next = self.body(at, bodies, &set, i, last, left)?;
            all = Summary::over_two(BinaryOp::Logic(op), &all, &next.summary);
            last = next;
        }
        Ok(all)
    }

    /// Returns the summary of the body of a quantifier for member `i` of its set: the last summary,
    /// if the member is the same stored value.
    #[cycle(summing)]
    fn body(
        &self,
        at: Site<'_>,
        bodies: Bodies<'_>,
        set: &Head<'_>,
        i: usize,
        last: BodyFact,
        room: Room,
    ) -> Result<BodyFact, UnfoldFault>
        requires { IsOfBody self.now at.scope.now bodies last }
        ensures light { IfOk result (λ r. r.summary.weight ≤ room) }
        ensures holds { (env : Env) (s v : Value) → Fits self.now at.entry.scope.now env
            → Heads self.now set.now s
            → slice_get (members s) i ≡ Some v
            → IfOk result (λ r. IsSummary r.summary (body_value bodies.entry env v)) }
        ensures known { IfOk result (λ r.
            IsOfBody self.now at.entry.scope.now bodies.entry r) }
        ensures heavy { (env : Env) (s v : Value) → Fits self.now at.entry.scope.now env
            → Heads self.now set.now s
            → slice_get (members s) i ≡ Some v
            → IfErr result (λ why. why ≡ Heavy → room < weight (body_value bodies.entry env v)) }
    {
        let head = self.member(at.depth, set, i)?;
        if last.is_of(&head) {
            room.less(last.summary.weight)?;
            return Ok(last);
        }
        let scope = &Scope::bound(&*bodies.name, head, &*at.scope);
        let within = Site {
            depth: at.depth,
            scope,
        };
        let summary = self.summary(within, bodies.body, room)?;
        let member = held_in(&head);
        Ok(BodyFact { member, summary })
    }

    /// Returns the summary of a counting quantifier over its bodies, one for each member of its
    /// set.
    #[cycle(summing)]
    fn counted_bodies(
        &self,
        at: Site<'_>,
        op: CountOp,
        number: u64,
        bodies: Bodies<'_>,
        room: Room,
    ) -> Result<Summary, UnfoldFault>
        ensures light { IfOk result (λ s. s.weight ≤ room) }
        ensures holds { (env : Env) → Fits self.now at.entry.scope.now env
            → IfOk result (λ s. IsSummary s (counted op number (bodies_of bodies.entry env))) }
        ensures heavy { (env : Env) → Fits self.now at.entry.scope.now env
            → IfErr result
            (λ why. why ≡ Heavy → room < weight (counted op number (bodies_of bodies.entry env))) }
    {
        let all = self.gather(at, bodies, room)?;
        if all.count == 0 {
            return Ok(Summary::none());
        }
        let gates = gates_weight(all.count, number, all.left)?;
        Ok(Summary {
            weight: room.get() - all.left.get() + gates,
            fact: counted_fact(op, all.count, number, all.fact),
        })
    }

    /// Gathers the bodies of a quantifier, from the first to the last.
    #[cycle(summing)]
    fn gather(&self, at: Site<'_>, bodies: Bodies<'_>, room: Room) -> Result<Gathered, UnfoldFault>
        ensures light { IfOk result (λ r. r.left ≤ room) }
        ensures count { (env : Env) → Fits self.now at.entry.scope.now env
            → IfOk result (λ r. r.count ≡ length (bodies_of bodies.entry env)) }
        ensures fact { (env : Env) → Fits self.now at.entry.scope.now env
            → IfOk result (λ r. Tells r.fact
            (Some (formula (gathered (map formula_of (bodies_of bodies.entry env)))))) }
        ensures weight { (env : Env) → Fits self.now at.entry.scope.now env
            → IfOk result (λ r. room ≡ r.left + sum_by weight (bodies_of bodies.entry env)) }
        ensures heavy { (env : Env) → Fits self.now at.entry.scope.now env
            → IfErr result (λ why. why ≡ Heavy → room < sum_by weight (bodies_of bodies.entry env)) }
    {
        let set = self.head(at.depth, at.scope, bodies.set)?;
        let count = self.member_count(&set);
        let mut fact = Fact::truth();
        let mut left = room;
        let mut last = BodyFact::none();
        for i in 0..count {
            let next = self.body(at, bodies, &set, i, last, left)?;
            left = left.without(next.summary.weight);
            fact = Fact::joined(&next.summary.fact, &fact);
            last = next;
        }
        Ok(Gathered { count, fact, left })
    }
}
