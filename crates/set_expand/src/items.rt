//! The unfolding of items one after another: the meanings of names, and the outputs.

ghost use Rattle.std.specs.Prelude.{◌≡◌, ◌≤◌, ◌++◌, ◌+◌, [], List as Seq, length, map, IfOk, OnOk};
ghost use Rattle.mltl_base.specs.declared.limits.TheConstants.{MAX_SIGNALS};
ghost use Rattle.c2po_ast.specs.Shape.{shape};
ghost use Rattle.c2po_ast.specs.ItemShape.{body_shape, contract, define, field_shape, formula, input, structure, type_shape};
ghost use Rattle.c2po_ast.specs.Nodes.{Has, formula as formula_tree};
ghost use Rattle.c2po_types.specs.Outputs.{before, with_signals};
ghost use Rattle.c2po_types.specs.Signals.{body_signals, is_bool};
ghost use Rattle.c2po_types.specs.Environment.{value_of};
ghost use Rattle.c2po_types.specs.Values.{formula_of};
ghost use Rattle.set_expand.specs.Light.{IsLight, IsLightItem};
ghost use Rattle.set_expand.specs.Names.{SignalsBelow, env_now};
ghost use Rattle.c2po_ast.specs.declared.nodes.Plain.{Plain};
ghost use Rattle.set_expand.specs.Nodes.{HaveNodes, IsMore, MadeAs};
ghost use Rattle.set_expand.specs.Unfolded.{Puts, StandsAt};

use crate::names::Names;
use crate::nodes::Made;
use crate::scope::{Scope, Site};
use c2po_ast::{Body, Expr, FieldDecl, Item, NodeList, PlainOut, TypeTree};
use c2po_types::names::output_name;
use mltl_base::{Engine, List, Name};
use std::alloc::{AllocError, Global};

/// The number of levels that expressions may nest: more than any stack has.
const DEPTH: u32 = u32::MAX;

/// The result of unfolding some items: the names, the number of signals, and the outputs over their
/// nodes.
#[derive(Drop)]
pub struct Unfolded<'a> {
    pub names: Names<'a>,
    pub signals: u32,
    pub nodes: NodeList,
    pub outs: List<PlainOut>,
}

/// Returns `true` if a type is Boolean.
fn is_bool(tree: &TypeTree) -> bool
    ensures { result ≡ is_bool (type_shape tree.now) }
{
    match tree {
        TypeTree::Named(name) => name.bytes() == b"bool".as_slice(),
        TypeTree::Set(_) => false,
    }
}

impl<'a> Names<'a> {
    /// Adds signals of one type, numbered from `from` on, and returns the names with the number of
    /// the next signal.
    fn with_signals(
        self,
        alloc: Global,
        from: u32,
        signals: &[Name],
        truth: bool,
    ) -> Result<(Names<'a>, u32), AllocError>
        requires few { from + length signals.now ≤ MAX_SIGNALS }
        ensures env { IfOk result (λ r. env_now r.0 ≡ with_signals from
            (map (λ x. record { name = x; truth = truth }) signals.now) (env_now self.entry)) }
        ensures below { SignalsBelow from self.entry → IfOk result (λ r. SignalsBelow r.1 r.0) }
        ensures kept { (nodes : Seq Plain) → HaveNodes nodes self.entry
            → IfOk result (λ r. HaveNodes nodes r.0) }
        ensures number { IfOk result (λ r. r.1 ≡ from + length signals.now) }
    {
        let mut names = self;
        let mut number = from;
        for name in signals {
            names = names.with_signal(alloc, name, truth, number)?;
            number += 1;
        }
        Ok((names, number))
    }

    /// Returns the index of the node of an output's formula, which sees all names.
    fn unfold(&self, nodes: &mut NodeList, alloc: Global, e: &Expr) -> Result<u32, AllocError>
        requires light { IsLight (value_of (shape e.now) (env_now self.now)) }
        requires kept { HaveNodes nodes.old self.now }
        ensures more { OnOk result (IsMore self.now nodes.old nodes.new) }
        ensures has { IfOk result (λ n. Has nodes.new n
            (formula_tree (formula_of (value_of (shape e.now) (env_now self.now))))) }
    {
        let scope = Scope::First(self.count());
        let at = Site {
            alloc,
            depth: DEPTH,
            scope: &scope,
        };
        self.formula(nodes, at, e)
    }

    /// Returns the node of a definition's expression if the definition is deep.
    fn unfold_if(
        &self,
        nodes: &mut NodeList,
        alloc: Global,
        e: &Expr,
        is_deep: bool,
    ) -> Result<Option<Made>, AllocError>
        requires light { IsLight (value_of (shape e.now) (env_now self.now)) }
        requires kept { HaveNodes nodes.old self.now }
        ensures more { OnOk result (IsMore self.now nodes.old nodes.new) }
        ensures made { IfOk result (MadeAs nodes.new
            (value_of (shape e.now) (env_now self.now))) }
    {
        if !is_deep {
            return Ok(None);
        }
        let scope = Scope::First(self.count());
        let at = Site {
            alloc,
            depth: DEPTH,
            scope: &scope,
        };
        let made = self.made(nodes, at, e)?;
        Ok(Some(made))
    }
}

impl<'a> Unfolded<'a> {
    /// Makes the result before the first item. Doesn't allocate.
    pub fn new(alloc: Global) -> Self
        ensures { StandsAt result before [] }
    {
        Unfolded {
            names: Names::new(alloc),
            signals: 0,
            nodes: NodeList::new(alloc),
            outs: List::new(alloc),
        }
    }

    /// Returns the result after a struct.
    fn after_struct(
        self,
        alloc: Global,
        name: &Name,
        decls: &'a List<FieldDecl>,
    ) -> Result<Unfolded<'a>, AllocError>
        ensures { Puts (structure name.now (map field_shape decls.now)) self.entry result }
    {
        let names = self.names.with_struct(alloc, name, decls)?;
        Ok(Unfolded { names, ..self })
    }

    /// Returns the result after signals of one type.
    fn after_input(
        self,
        alloc: Global,
        signals: &List<Name>,
        tree: &TypeTree,
    ) -> Result<Unfolded<'a>, AllocError>
        requires few { self.signals + length signals.now ≤ MAX_SIGNALS }
        ensures { Puts (input signals.now (type_shape tree.now)) self.entry result }
    {
        let truth = is_bool(tree);
        let Unfolded {
            names,
            signals: from,
            nodes,
            outs,
        } = self;
        let (names, signals) = names.with_signals(alloc, from, signals.as_slice(), truth)?;
        Ok(Unfolded {
            names,
            signals,
            nodes,
            outs,
        })
    }

    /// Returns the result after a definition, which is unfolded now if it is deep.
    fn after_define(
        self,
        alloc: Global,
        name: &Name,
        e: &'a Expr,
        is_deep: bool,
    ) -> Result<Unfolded<'a>, AllocError>
        requires light { IsLight (value_of (shape e.now) (env_now self.names)) }
        requires kept { HaveNodes self.nodes self.names }
        ensures { Puts (define name.now (shape e.now)) self.entry result }
    {
        let Unfolded {
            names,
            signals,
            mut nodes,
            outs,
        } = self;
        let made = names.unfold_if(&mut nodes, alloc, e, is_deep)?;
        let names = names.with_definition(alloc, name, e, made)?;
        Ok(Unfolded {
            names,
            signals,
            nodes,
            outs,
        })
    }

    /// Returns the result after an output with a formula.
    fn after_formula(
        self,
        alloc: Global,
        engine: Engine,
        label: &Option<Name>,
        e: &Expr,
    ) -> Result<Unfolded<'a>, AllocError>
        requires light { IsLight (value_of (shape e.now) (env_now self.names)) }
        requires kept { HaveNodes self.nodes self.names }
        ensures { Puts (formula engine label.now (shape e.now)) self.entry result }
    {
        let Unfolded {
            names,
            signals,
            mut nodes,
            mut outs,
        } = self;
        let node = names.unfold(&mut nodes, alloc, e)?;
        let name = output_name(outs.len(), label);
        outs.push(PlainOut::Formula(engine, node, name))?;
        Ok(Unfolded {
            names,
            signals,
            nodes,
            outs,
        })
    }

    /// Returns the result after an output with a contract.
    fn after_contract(
        self,
        alloc: Global,
        engine: Engine,
        label: &Option<Name>,
        left: &Expr,
        right: &Expr,
    ) -> Result<Unfolded<'a>, AllocError>
        requires left { IsLight (value_of (shape left.now) (env_now self.names)) }
        requires right { IsLight (value_of (shape right.now) (env_now self.names)) }
        requires kept { HaveNodes self.nodes self.names }
        ensures { Puts (contract engine label.now (shape left.now) (shape right.now))
            self.entry result }
    {
        let Unfolded {
            names,
            signals,
            mut nodes,
            mut outs,
        } = self;
        let left = names.unfold(&mut nodes, alloc, left)?;
        let right = names.unfold(&mut nodes, alloc, right)?;
        let name = output_name(outs.len(), label);
        outs.push(PlainOut::Contract(engine, left, right, name))?;
        Ok(Unfolded {
            names,
            signals,
            nodes,
            outs,
        })
    }

    /// Returns the result after an item. A deep definition is unfolded now, and any other
    /// definition when it is used.
    pub fn after(
        self,
        alloc: Global,
        item: &'a Item,
        is_deep: bool,
    ) -> Result<Unfolded<'a>, AllocError>
        requires light { IsLightItem (env_now self.names) (body_shape item.now.body) }
        requires few { self.signals + length (body_signals (body_shape item.now.body))
            ≤ MAX_SIGNALS }
        requires kept { HaveNodes self.nodes self.names }
        ensures { Puts (body_shape item.now.body) self.entry result }
    {
        match &item.body {
            Body::Struct(name, fields) => self.after_struct(alloc, name, fields),
            Body::Input(names, tree) => self.after_input(alloc, names, tree),
            Body::Define(name, e) => self.after_define(alloc, name, e, is_deep),
            Body::Formula(engine, label, e) => self.after_formula(alloc, *engine, label, e),
            Body::Contract(engine, label, left, right) => {
                self.after_contract(alloc, *engine, label, left, right)
            }
        }
    }
}
