//! Counting quantifiers: their gates as nodes.

ghost use Rattle.std.specs.Prelude.{◌≡◌, ◌≤◌, ℕ, List as Seq, Some, length, map, slice_get, IfOk, OnOk};
ghost use Rattle.mltl_base.specs.declared.limits.TheConstants.{MAX_WEIGHT};
ghost use Rattle.mltl_base.specs.Formula.{Formula};
ghost use Rattle.count_sets.specs.Counting.{Counted, counting};
ghost use Rattle.count_sets.specs.Gates.{IsNetwork, IsOver, gate_meaning, last_formula};
ghost use Rattle.c2po_ast.specs.Nodes.{Has, IsFormula, formula, trees};
ghost use Rattle.c2po_types.specs.Values.{counted_formula};
ghost use Rattle.c2po_types.specs.Weights.{counting_weight};
ghost use Rattle.set_expand.specs.Nodes.{AreFormulas, HaveFormulas, IsMore};

use crate::names::Names;
use c2po_ast::{NodeList, Plain};
use count_sets::{Gate, network};
use mltl_base::{CountOp, LogicOp};
use std::alloc::{AllocError, Global};

impl<'a> Names<'a> {
    /// Adds the node of a counting quantifier over the nodes of its bodies, and returns its index.
    pub(crate) fn gates(
        &self,
        nodes: &mut NodeList,
        alloc: Global,
        op: CountOp,
        number: u64,
        bodies: &[u32],
    ) -> Result<u32, AllocError>
        requires some { 1 ≤ length bodies.now }
        requires light { counting_weight (length bodies.now) number ≤ MAX_WEIGHT }
        requires formulas { AreFormulas nodes.old bodies.now }
        ensures more { OnOk result (IsMore self.now nodes.old nodes.new) }
        ensures has { (ps : Seq Formula) → HaveFormulas nodes.old bodies.now ps
            → IfOk result (λ n. Has nodes.new n
            (formula (counted_formula ps (counting op (length ps) number)))) }
    {
        let count = bodies.len() as u32;
        let number = number.min(u64::from(count) + 1) as u32;
        let gates = network(alloc, op, count, number)?;
        self.splice(nodes, alloc, gates.as_slice(), bodies)
    }

    /// Adds the nodes of gates over the nodes of the bodies, and returns the index of the last
    /// gate's node.
    fn splice(
        &self,
        nodes: &mut NodeList,
        alloc: Global,
        gates: &[Gate],
        bodies: &[u32],
    ) -> Result<u32, AllocError>
        requires some { 1 ≤ length gates.now }
        requires formed { IsNetwork (length bodies.now) gates.now }
        requires formulas { AreFormulas nodes.old bodies.now }
        ensures more { OnOk result (IsMore self.now nodes.old nodes.new) }
        ensures has { (ps : Seq Formula) (c : Counted) → HaveFormulas nodes.old bodies.now ps
            → last_formula gates.now ≡ Some c
            → IfOk result (λ n. Has nodes.new n (formula (counted_formula ps c))) }
    {
        let mut places = Vec::new(alloc);
        for gate in gates {
            let place = self.gate(nodes, *gate, bodies, &places)?;
            places.push(place)?;
        }
        Ok(places[gates.len() - 1])
    }

    /// Returns the index of a gate's node, which is added over the nodes of the bodies and the
    /// earlier gates.
    fn gate(
        &self,
        nodes: &mut NodeList,
        gate: Gate,
        bodies: &[u32],
        earlier: &[u32],
    ) -> Result<u32, AllocError>
        requires over { IsOver (length bodies.now) (length earlier.now) gate }
        requires bodies { AreFormulas nodes.old bodies.now }
        requires earlier { AreFormulas nodes.old earlier.now }
        ensures more { OnOk result (IsMore self.now nodes.old nodes.new) }
        ensures is { IfOk result (λ n. IsFormula (slice_get (trees nodes.new) n)) }
        ensures has { (ps : Seq Formula) (cs : Seq Counted)
            → HaveFormulas nodes.old bodies.now ps
            → HaveFormulas nodes.old earlier.now (map (counted_formula ps) cs)
            → IfOk result
            (λ n. Has nodes.new n (formula (counted_formula ps (gate_meaning cs gate)))) }
    {
        match gate {
            Gate::Truth(truth) => {
                let node = self.place(nodes, Plain::Truth(truth))?;
                Ok(node)
            }
            Gate::Body(i) => Ok(bodies[i as usize]),
            Gate::Both(i, j) => {
                let (left, right) = (earlier[i as usize], earlier[j as usize]);
                let node = self.place(nodes, Plain::Logic(LogicOp::And, left, right))?;
                Ok(node)
            }
            Gate::Either(i, j) => {
                let (left, right) = (earlier[i as usize], earlier[j as usize]);
                let node = self.place(nodes, Plain::Logic(LogicOp::Or, left, right))?;
                Ok(node)
            }
            Gate::Not(i) => {
                let node = self.place(nodes, Plain::Not(earlier[i as usize]))?;
                Ok(node)
            }
        }
    }
}
