//! Core formulas of formulas: the rewriting of each operator over vertices.

ghost use Rattle.std.specs.Prelude.{◌≡◌, ◌<◌, Bool, length, OnOk, IfOk};
ghost use Rattle.mltl_base.specs.Atoms.{Term};
ghost use Rattle.mltl_base.specs.Formula.{Core, Formula as Plainly, cand, cuntil, csince, core, core_atom, neg};
ghost use Rattle.c2po_ast.specs.Nodes.{comparison, connected, constant_formula, ranged, windowed};
ghost use Rattle.core_graph.specs.Images.{of_core, of_term};
ghost use Rattle.core_graph.specs.Vertices.{Grows, Has, IsForest};
ghost use Rattle.core_graph.specs.Reading.{IsCoreAt};

use crate::forest::Forest;
use crate::vertex::Vertex;
use mltl_base::{BetweenOp, CompareOp, Interval, LogicOp, WindowOp};
use std::alloc::AllocError;

impl Forest {
    /// Returns the vertex of a constant formula.
    pub fn truth(&mut self, value: bool) -> Result<usize, AllocError>
        requires forest { IsForest self.old }
        ensures grows { OnOk result (Grows self.old self.new) }
        ensures has { IfOk result (λ n. Has self.new n (of_core (core (constant_formula value)))) }
    {
        let n = self.share(Vertex::True)?;
        if value {
            Ok(n)
        } else {
            self.share(Vertex::Not(n))
        }
    }

    /// Returns the vertex of `!a`. A double negation is dropped.
    pub fn negation(&mut self, a: usize) -> Result<usize, AllocError>
        requires forest { IsForest self.old }
        requires there { IsCoreAt self.old a }
        ensures grows { OnOk result (Grows self.old self.new) }
        ensures has { (p : Core) → Has self.old a (of_core p)
            → IfOk result (λ n. Has self.new n (of_core (neg p))) }
    {
        match self.get(a) {
            Vertex::Not(b) => Ok(b),
            _ => self.share(Vertex::Not(a)),
        }
    }

    /// Returns the vertex of `a && b`.
    pub fn conjunction(&mut self, a: usize, b: usize) -> Result<usize, AllocError>
        requires forest { IsForest self.old }
        requires left { IsCoreAt self.old a }
        requires right { IsCoreAt self.old b }
        ensures grows { OnOk result (Grows self.old self.new) }
        ensures has { (p q : Core) → Has self.old a (of_core p) → Has self.old b (of_core q)
            → IfOk result (λ n. Has self.new n (of_core (cand p q))) }
    {
        self.share(Vertex::And(a, b))
    }

    /// Returns the vertex of `a -> b`, which is `!(a && !b)`.
    pub fn implication(&mut self, a: usize, b: usize) -> Result<usize, AllocError>
        requires forest { IsForest self.old }
        requires left { IsCoreAt self.old a }
        requires right { IsCoreAt self.old b }
        ensures grows { OnOk result (Grows self.old self.new) }
        ensures has { (p q : Core) → Has self.old a (of_core p) → Has self.old b (of_core q)
            → IfOk result (λ n. Has self.new n (of_core (neg (cand p (neg q))))) }
    {
        let not_b = self.negation(b)?;
        let both = self.conjunction(a, not_b)?;
        self.negation(both)
    }

    /// Returns the vertex of `a || b`, which is `!(!a && !b)`.
    pub fn disjunction(&mut self, a: usize, b: usize) -> Result<usize, AllocError>
        requires forest { IsForest self.old }
        requires left { IsCoreAt self.old a }
        requires right { IsCoreAt self.old b }
        ensures grows { OnOk result (Grows self.old self.new) }
        ensures has { (p q : Core) → Has self.old a (of_core p) → Has self.old b (of_core q)
            → IfOk result (λ n. Has self.new n (of_core (neg (cand (neg p) (neg q))))) }
    {
        let not_a = self.negation(a)?;
        self.implication(not_a, b)
    }

    /// Returns the vertex of `a <-> b`, which is `(a -> b) && (b -> a)`.
    pub fn equivalence(&mut self, a: usize, b: usize) -> Result<usize, AllocError>
        requires forest { IsForest self.old }
        requires left { IsCoreAt self.old a }
        requires right { IsCoreAt self.old b }
        ensures grows { OnOk result (Grows self.old self.new) }
        ensures has { (p q : Core) → Has self.old a (of_core p) → Has self.old b (of_core q)
            → IfOk result (λ n. Has self.new n (of_core
            (cand (neg (cand p (neg q))) (neg (cand q (neg p)))))) }
    {
        let forward = self.implication(a, b)?;
        let backward = self.implication(b, a)?;
        self.conjunction(forward, backward)
    }

    /// Returns the vertex of `a U[i] b`.
    pub fn until(&mut self, i: Interval, a: usize, b: usize) -> Result<usize, AllocError>
        requires forest { IsForest self.old }
        requires left { IsCoreAt self.old a }
        requires right { IsCoreAt self.old b }
        ensures grows { OnOk result (Grows self.old self.new) }
        ensures has { (p q : Core) → Has self.old a (of_core p) → Has self.old b (of_core q)
            → IfOk result (λ n. Has self.new n (of_core (cuntil i p q))) }
    {
        self.share(Vertex::Until(i, a, b))
    }

    /// Returns the vertex of `a S[i] b`.
    pub fn since(&mut self, i: Interval, a: usize, b: usize) -> Result<usize, AllocError>
        requires forest { IsForest self.old }
        requires left { IsCoreAt self.old a }
        requires right { IsCoreAt self.old b }
        ensures grows { OnOk result (Grows self.old self.new) }
        ensures has { (p q : Core) → Has self.old a (of_core p) → Has self.old b (of_core q)
            → IfOk result (λ n. Has self.new n (of_core (csince i p q))) }
    {
        self.share(Vertex::Since(i, a, b))
    }

    /// Returns the vertex of a comparison of integers, made of the operators that instructions have.
    pub fn comparison(&mut self, op: CompareOp, a: usize, b: usize) -> Result<usize, AllocError>
        requires forest { IsForest self.old }
        requires left { a < length self.old }
        requires right { b < length self.old }
        ensures grows { OnOk result (Grows self.old self.new) }
        ensures has { (x y : Term) → Has self.old a (of_term x) → Has self.old b (of_term y)
            → IfOk result (λ n. Has self.new n (of_core (core_atom (comparison op x y)))) }
    {
        let atom = self.share(match op {
            CompareOp::Eq | CompareOp::Ne => Vertex::Eq(a, b),
            CompareOp::Lt => Vertex::Lt(a, b),
            CompareOp::Le => Vertex::Le(a, b),
            CompareOp::Gt => Vertex::Lt(b, a),
            CompareOp::Ge => Vertex::Le(b, a),
        })?;
        let load = self.share(Vertex::Load(atom))?;
        if op == CompareOp::Ne {
            self.share(Vertex::Not(load))
        } else {
            Ok(load)
        }
    }

    /// Returns the vertex of a connective.
    pub fn connective(&mut self, op: LogicOp, a: usize, b: usize) -> Result<usize, AllocError>
        requires forest { IsForest self.old }
        requires left { IsCoreAt self.old a }
        requires right { IsCoreAt self.old b }
        ensures grows { OnOk result (Grows self.old self.new) }
        ensures has { (p q : Plainly)
            → Has self.old a (of_core (core p)) → Has self.old b (of_core (core q))
            → IfOk result (λ n. Has self.new n (of_core (core (connected op p q)))) }
    {
        match op {
            LogicOp::And => self.conjunction(a, b),
            LogicOp::Or => self.disjunction(a, b),
            LogicOp::Implies => self.implication(a, b),
            LogicOp::Iff => self.equivalence(a, b),
        }
    }

    /// Returns the vertex of a temporal operator of one formula, made by until or since with `true`.
    pub fn window(&mut self, op: WindowOp, i: Interval, a: usize) -> Result<usize, AllocError>
        requires forest { IsForest self.old }
        requires there { IsCoreAt self.old a }
        ensures grows { OnOk result (Grows self.old self.new) }
        ensures has { (p : Plainly) → Has self.old a (of_core (core p))
            → IfOk result (λ n. Has self.new n (of_core (core (windowed op i p)))) }
    {
        let always = self.share(Vertex::True)?;
        match op {
            WindowOp::F => self.until(i, always, a),
            WindowOp::O => self.since(i, always, a),
            WindowOp::G => {
                let not_a = self.negation(a)?;
                let until = self.until(i, always, not_a)?;
                self.negation(until)
            }
            WindowOp::H => {
                let not_a = self.negation(a)?;
                let since = self.since(i, always, not_a)?;
                self.negation(since)
            }
        }
    }

    /// Returns the vertex of a temporal operator of two formulas.
    pub fn between(
        &mut self,
        op: BetweenOp,
        i: Interval,
        a: usize,
        b: usize,
    ) -> Result<usize, AllocError>
        requires forest { IsForest self.old }
        requires left { IsCoreAt self.old a }
        requires right { IsCoreAt self.old b }
        ensures grows { OnOk result (Grows self.old self.new) }
        ensures has { (p q : Plainly)
            → Has self.old a (of_core (core p)) → Has self.old b (of_core (core q))
            → IfOk result (λ n. Has self.new n (of_core (core (ranged op i p q)))) }
    {
        match op {
            BetweenOp::U => self.until(i, a, b),
            BetweenOp::S => self.since(i, a, b),
            BetweenOp::R => {
                let not_a = self.negation(a)?;
                let not_b = self.negation(b)?;
                let until = self.until(i, not_a, not_b)?;
                self.negation(until)
            }
        }
    }
}
