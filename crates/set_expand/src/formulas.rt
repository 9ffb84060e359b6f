//! Nodes of expressions.

ghost use Rattle.std.specs.Prelude.{◌≡◌, ◌<◌, ◌≤◌, ℕ, true, All, Some, length, map, slice_get, IfOk, OnOk};
ghost use Rattle.mltl_base.specs.declared.limits.TheConstants.{MAX_WEIGHT};
ghost use Rattle.c2po_ast.specs.Shape.{shape};
ghost use Rattle.c2po_ast.specs.Nodes.{Has, formula, number};
ghost use Rattle.c2po_types.specs.Environment.{value_of};
ghost use Rattle.c2po_types.specs.Heads.{is_operator};
ghost use Rattle.c2po_types.specs.Operators.{binary_value, bodies_of, bodies_over, body_value, unary_value};
ghost use Rattle.c2po_types.specs.Values.{Value, connected_all, counted, formula_of, members, term_of};
ghost use Rattle.c2po_types.specs.Weights.{counting_weight};
ghost use Rattle.set_expand.specs.Heads.{IsHead, env_in, head_value};
ghost use Rattle.set_expand.specs.Light.{IsLight};
ghost use Rattle.set_expand.specs.Nodes.{AreFormulas, HaveFormulas, HaveNodes, IsMade, IsMore};

use crate::heads::deeper;
use crate::names::Names;
use crate::nodes::{Made, interval_of, signal_of};
use crate::scope::{Head, Site};
use c2po_ast::{Expr, NodeList, Plain};
use c2po_types::operators::{BinaryOp, Bodies, Operation, UnaryOp};
use mltl_base::{CountOp, LogicOp};
use std::alloc::AllocError;

impl<'a> Names<'a> {
    /// Adds the node of an expression, and returns it.
    #[cycle(unfolding)]
    pub(crate) fn made(
        &self,
        nodes: &mut NodeList,
        at: Site<'_>,
        e: &Expr,
    ) -> Result<Made, AllocError>
        requires light { IsLight (value_of (shape e.now) (env_in self.now at.scope.now)) }
        requires kept { HaveNodes nodes.old self.now }
        ensures more { OnOk result (IsMore self.now nodes.old nodes.new) }
        ensures made { IfOk result (λ made. IsMade nodes.new made
            (value_of (shape e.now) (env_in self.now at.entry.scope.now))) }
    {
        let depth = deeper(at.depth)?;
        match (&*self).head(depth, at.scope, e)? {
            Head::Nothing => {
                let node = self.place(nodes, Plain::Truth(false))?;
                Ok(Made::Formula(node))
            }
            Head::Signal(truth, number) => {
                let node = self.place(nodes, signal_of(truth, number))?;
                if truth {
                    Ok(Made::Formula(node))
                } else {
                    Ok(Made::Number(node))
                }
            }
            Head::Struct(..) | Head::Set(..) => Ok(Made::Whole),
            Head::Kept(made, ..) => Ok(made),
            Head::Leaf(scope, e) => {
                let within = Site {
                    depth,
                    scope: &scope,
                    ..at
                };
                self.operator(nodes, within, e)
            }
        }
    }

    /// Adds the node of a number, a Boolean, an operator or a quantifier, and returns it.
    #[cycle(unfolding)]
    fn operator(&self, nodes: &mut NodeList, at: Site<'_>, e: &Expr) -> Result<Made, AllocError>
        requires operator { is_operator (shape e.now) ≡ true }
        requires light { IsLight (value_of (shape e.now) (env_in self.now at.scope.now)) }
        requires kept { HaveNodes nodes.old self.now }
        ensures more { OnOk result (IsMore self.now nodes.old nodes.new) }
        ensures made { IfOk result (λ made. IsMade nodes.new made
            (value_of (shape e.now) (env_in self.now at.entry.scope.now))) }
    {
        match Operation::of(e) {
            Operation::Number(n) => {
                let node = self.place(nodes, Plain::Number(n))?;
                Ok(Made::Number(node))
            }
            Operation::Truth(truth) => {
                let node = self.place(nodes, Plain::Truth(truth))?;
                Ok(Made::Formula(node))
            }
            Operation::Unary(op, a) => self.unary(nodes, at, op, a),
            Operation::Binary(op, a, b) => self.binary(nodes, at, op, a, b),
            Operation::Joined(op, bodies) => {
                let node = self.joined(nodes, at, op, bodies)?;
                Ok(Made::Formula(node))
            }
            Operation::Counted(op, number, bodies) => {
                let node = self.counted(nodes, at, op, number, bodies)?;
                Ok(Made::Formula(node))
            }
        }
    }

    /// Returns the index of a node with the integer of an expression, or with 0 if its value has
    /// another kind.
    #[cycle(unfolding)]
    fn number(&self, nodes: &mut NodeList, at: Site<'_>, e: &Expr) -> Result<u32, AllocError>
        requires light { IsLight (value_of (shape e.now) (env_in self.now at.scope.now)) }
        requires kept { HaveNodes nodes.old self.now }
        ensures more { OnOk result (IsMore self.now nodes.old nodes.new) }
        ensures has { IfOk result (λ n. Has nodes.new n (number
            (term_of (value_of (shape e.now) (env_in self.now at.entry.scope.now))))) }
    {
        match self.made(nodes, at, e)? {
            Made::Number(node) => Ok(node),
            Made::Formula(_) | Made::Whole => {
                let node = self.place(nodes, Plain::Number(0))?;
                Ok(node)
            }
        }
    }

    /// Returns the index of a node with the formula of an expression, or with `false` if its value
    /// has another kind.
    #[cycle(unfolding)]
    pub(crate) fn formula(
        &self,
        nodes: &mut NodeList,
        at: Site<'_>,
        e: &Expr,
    ) -> Result<u32, AllocError>
        requires light { IsLight (value_of (shape e.now) (env_in self.now at.scope.now)) }
        requires kept { HaveNodes nodes.old self.now }
        ensures more { OnOk result (IsMore self.now nodes.old nodes.new) }
        ensures has { IfOk result (λ n. Has nodes.new n (formula
            (formula_of (value_of (shape e.now) (env_in self.now at.entry.scope.now))))) }
    {
        match self.made(nodes, at, e)? {
            Made::Formula(node) => Ok(node),
            Made::Number(_) | Made::Whole => {
                let node = self.place(nodes, Plain::Truth(false))?;
                Ok(node)
            }
        }
    }

    /// Adds the node of an operator over one operand, and returns it.
    #[cycle(unfolding)]
    fn unary(
        &self,
        nodes: &mut NodeList,
        at: Site<'_>,
        op: UnaryOp,
        a: &Expr,
    ) -> Result<Made, AllocError>
        requires light { IsLight (value_of (shape a.now) (env_in self.now at.scope.now)) }
        requires kept { HaveNodes nodes.old self.now }
        ensures more { OnOk result (IsMore self.now nodes.old nodes.new) }
        ensures made { IfOk result (λ made. IsMade nodes.new made
            (unary_value op (value_of (shape a.now) (env_in self.now at.entry.scope.now)))) }
    {
        match op {
            UnaryOp::Minus => {
                let a = self.number(nodes, at, a)?;
                let node = self.place(nodes, Plain::Minus(a))?;
                Ok(Made::Number(node))
            }
            UnaryOp::Not => {
                let a = self.formula(nodes, at, a)?;
                let node = self.place(nodes, Plain::Not(a))?;
                Ok(Made::Formula(node))
            }
            UnaryOp::Window(op, low, high) => {
                let a = self.formula(nodes, at, a)?;
                let node = self.place(nodes, Plain::Window(op, interval_of(low, high), a))?;
                Ok(Made::Formula(node))
            }
        }
    }

    /// Adds the node of an operator over two operands, and returns it.
    #[cycle(unfolding)]
    fn binary(
        &self,
        nodes: &mut NodeList,
        at: Site<'_>,
        op: BinaryOp,
        a: &Expr,
        b: &Expr,
    ) -> Result<Made, AllocError>
        requires left { IsLight (value_of (shape a.now) (env_in self.now at.scope.now)) }
        requires right { IsLight (value_of (shape b.now) (env_in self.now at.scope.now)) }
        requires kept { HaveNodes nodes.old self.now }
        ensures more { OnOk result (IsMore self.now nodes.old nodes.new) }
        ensures made { IfOk result (λ made. IsMade nodes.new made (binary_value op
            (value_of (shape a.now) (env_in self.now at.entry.scope.now))
            (value_of (shape b.now) (env_in self.now at.entry.scope.now)))) }
    {
        match op {
            BinaryOp::Arith(op) => {
                let (a, b) = self.numbers(nodes, at, a, b)?;
                let node = self.place(nodes, Plain::Arith(op, a, b))?;
                Ok(Made::Number(node))
            }
            BinaryOp::Compare(op) => {
                let (a, b) = self.numbers(nodes, at, a, b)?;
                let node = self.place(nodes, Plain::Compare(op, a, b))?;
                Ok(Made::Formula(node))
            }
            BinaryOp::Logic(op) => {
                let (a, b) = self.formulas(nodes, at, a, b)?;
                let node = self.place(nodes, Plain::Logic(op, a, b))?;
                Ok(Made::Formula(node))
            }
            BinaryOp::Between(op, low, high) => {
                let (a, b) = self.formulas(nodes, at, a, b)?;
                let between = Plain::Between(op, interval_of(low, high), a, b);
                let node = self.place(nodes, between)?;
                Ok(Made::Formula(node))
            }
        }
    }

    /// Returns the indices of nodes with the integers of two expressions.
    #[cycle(unfolding)]
    fn numbers(
        &self,
        nodes: &mut NodeList,
        at: Site<'_>,
        a: &Expr,
        b: &Expr,
    ) -> Result<(u32, u32), AllocError>
        requires left { IsLight (value_of (shape a.now) (env_in self.now at.scope.now)) }
        requires right { IsLight (value_of (shape b.now) (env_in self.now at.scope.now)) }
        requires kept { HaveNodes nodes.old self.now }
        ensures more { OnOk result (IsMore self.now nodes.old nodes.new) }
        ensures left { IfOk result (λ r. Has nodes.new r.0 (number
            (term_of (value_of (shape a.now) (env_in self.now at.entry.scope.now))))) }
        ensures right { IfOk result (λ r. Has nodes.new r.1 (number
            (term_of (value_of (shape b.now) (env_in self.now at.entry.scope.now))))) }
    {
        let left = self.number(nodes, at, a)?;
        let right = self.number(nodes, at, b)?;
        Ok((left, right))
    }

    /// Returns the indices of nodes with the formulas of two expressions.
    #[cycle(unfolding)]
    fn formulas(
        &self,
        nodes: &mut NodeList,
        at: Site<'_>,
        a: &Expr,
        b: &Expr,
    ) -> Result<(u32, u32), AllocError>
        requires left { IsLight (value_of (shape a.now) (env_in self.now at.scope.now)) }
        requires right { IsLight (value_of (shape b.now) (env_in self.now at.scope.now)) }
        requires kept { HaveNodes nodes.old self.now }
        ensures more { OnOk result (IsMore self.now nodes.old nodes.new) }
        ensures left { IfOk result (λ r. Has nodes.new r.0 (formula
            (formula_of (value_of (shape a.now) (env_in self.now at.entry.scope.now))))) }
        ensures right { IfOk result (λ r. Has nodes.new r.1 (formula
            (formula_of (value_of (shape b.now) (env_in self.now at.entry.scope.now))))) }
    {
        let left = self.formula(nodes, at, a)?;
        let right = self.formula(nodes, at, b)?;
        Ok((left, right))
    }

    /// Returns the index of the node of a quantifier's body when its variable is member `i` of its
    /// set.
    #[cycle(unfolding)]
    fn body(
        &self,
        nodes: &mut NodeList,
        at: Site<'_>,
        bodies: Bodies<'_>,
        set: &Head<'_>,
        i: usize,
    ) -> Result<u32, AllocError>
        requires head { IsHead set.now }
        requires inside { i < length (members (head_value self.now set.now)) }
        requires light { All IsLight (bodies_over bodies (env_in self.now at.scope.now)
            (head_value self.now set.now)) }
        requires kept { HaveNodes nodes.old self.now }
        ensures more { OnOk result (IsMore self.now nodes.old nodes.new) }
        ensures has { (v : Value) → slice_get (members (head_value self.now set.now)) i ≡ Some v
            → IfOk result (λ n. Has nodes.new n (formula (formula_of
            (body_value bodies.entry (env_in self.now at.entry.scope.now) v)))) }
    {
        let scope = self.member_scope(&*at.scope, &*bodies.name, &*set, i);
        let within = Site {
            scope: &scope,
            ..at
        };
        self.formula(nodes, within, bodies.body)
    }

    /// Returns the index of the node that joins a quantifier's bodies, one for each member of its
    /// set, by an operator.
    #[cycle(unfolding)]
    fn joined(
        &self,
        nodes: &mut NodeList,
        at: Site<'_>,
        op: LogicOp,
        bodies: Bodies<'_>,
    ) -> Result<u32, AllocError>
        requires light { All IsLight (bodies_of bodies (env_in self.now at.scope.now)) }
        requires kept { HaveNodes nodes.old self.now }
        ensures more { OnOk result (IsMore self.now nodes.old nodes.new) }
        ensures has { IfOk result (λ n. Has nodes.new n (formula (formula_of (connected_all op
            (bodies_of bodies.entry (env_in self.now at.entry.scope.now)))))) }
    {
        let set = (&*self).head(at.depth, at.scope, bodies.set)?;
        let count = self.member_count(&set);
        if count == 0 {
            let none = self.place(nodes, Plain::Truth(false))?;
            return Ok(none);
        }
        let mut all = self.body(nodes, at, bodies, &set, 0)?;
        for i in 1..count {
            let next = self.body(nodes, at, bodies, &set, i)?;
            let more = self.place(nodes, Plain::Logic(op, all, next))?;
            all = more;
        }
        Ok(all)
    }

    /// Returns the index of the node of a counting quantifier over its bodies, one for each member
    /// of its set.
    #[cycle(unfolding)]
    fn counted(
        &self,
        nodes: &mut NodeList,
        at: Site<'_>,
        op: CountOp,
        number: u64,
        bodies: Bodies<'_>,
    ) -> Result<u32, AllocError>
        requires light { All IsLight (bodies_of bodies (env_in self.now at.scope.now)) }
        requires gates { counting_weight (length (bodies_of bodies (env_in self.now at.scope.now)))
            number ≤ MAX_WEIGHT }
        requires kept { HaveNodes nodes.old self.now }
        ensures more { OnOk result (IsMore self.now nodes.old nodes.new) }
        ensures has { IfOk result (λ n. Has nodes.new n (formula (formula_of (counted op number
            (bodies_of bodies.entry (env_in self.now at.entry.scope.now)))))) }
    {
        let places = self.body_nodes(nodes, at, bodies)?;
        if places.is_empty() {
            let none = self.place(nodes, Plain::Truth(false))?;
            return Ok(none);
        }
        let node = self.gates(nodes, at.alloc, op, number, &places)?;
        Ok(node)
    }

    /// Returns the indices of the nodes of a quantifier's bodies, one for each member of its set.
    #[cycle(unfolding)]
    fn body_nodes(
        &self,
        nodes: &mut NodeList,
        at: Site<'_>,
        bodies: Bodies<'_>,
    ) -> Result<Vec<u32>, AllocError>
        requires light { All IsLight (bodies_of bodies (env_in self.now at.scope.now)) }
        requires kept { HaveNodes nodes.old self.now }
        ensures more { OnOk result (IsMore self.now nodes.old nodes.new) }
        ensures formulas { IfOk result (λ places. AreFormulas nodes.new places.items) }
        ensures have { IfOk result (λ places. HaveFormulas nodes.new places.items
            (map formula_of (bodies_of bodies.entry (env_in self.now at.entry.scope.now)))) }
    {
        let set = (&*self).head(at.depth, at.scope, bodies.set)?;
        let mut places = Vec::new(at.alloc);
        for i in 0..self.member_count(&set) {
            let place = self.body(nodes, at, bodies, &set, i)?;
            places.push(place)?;
        }
        Ok(places)
    }
}
