//! The check of an item after others.

ghost use Rattle.std.specs.Prelude.{◌≡◌, ◌+◌, ◌≤◌, drop, map, OnOk, IfErr};
ghost use Rattle.mltl_base.specs.declared.limits.TheConstants.{MAX_WEIGHT};
ghost use Rattle.mltl_base.specs.Answers.{reason};
ghost use Rattle.c2po_ast.specs.Shape.{shape};
ghost use Rattle.c2po_ast.specs.ItemShape.{field_shape, item_shape, type_shape};
ghost use Rattle.c2po_types.specs.Facts.{told_fault, with_future, with_past};
ghost use Rattle.c2po_types.specs.Environment.{Env, value_of};
ghost use Rattle.c2po_types.specs.Holding.{StandsFor, Weighs};
ghost use Rattle.c2po_types.specs.Values.{Value};
ghost use Rattle.c2po_types.specs.FirstFault.{other_tense, range_fault};
ghost use Rattle.c2po_types.specs.Stepwise.{item_step, struct_step, input_step, define_step, formula_step, contract_step, one_out, two_out, with_out};
ghost use Rattle.c2po_types.specs.Outputs.{with_signals};
ghost use Rattle.c2po_types.specs.Reaching.{Reaches, state_of, unfold_fault};

use crate::progress::Progress;
use crate::{
    Signal, Tenses, TypeFault, UnfoldFault, Unfolding, Weighed, check_contract, check_define,
    check_formula, declare_label, first_fault,
};
use c2po_ast::{Body, Expr, FieldDecl, Item, TypeTree, field_names};
use mltl_base::limits::MAX_WEIGHT;
use mltl_base::{Engine, List, Name, NoRange};
use std::alloc::Global;

/// Returns the fault of an item whose value isn't unfolded.
fn too_wide(line: u32, why: UnfoldFault) -> TypeFault
    ensures { result ≡ unfold_fault line why }
{
    match why {
        UnfoldFault::Heavy => TypeFault::Wide(line),
        UnfoldFault::Memory => TypeFault::Memory,
    }
}

/// Returns the fault of an item that has an integer without a range.
fn no_range(line: u32, why: NoRange) -> TypeFault
    ensures { result ≡ range_fault line (reason why) }
{
    match why {
        NoRange::Divisor => TypeFault::Divisor(line),
        NoRange::Wide => TypeFault::Range(line),
    }
}

/// Returns `true` if these tenses include the other tense than the engine's.
fn is_mixed(engine: Engine, tenses: Tenses) -> bool
    ensures { result ≡ other_tense engine (with_past tenses) (with_future tenses) }
{
    match engine {
        Engine::Ft => tenses.has_past(),
        Engine::Pt => tenses.has_future(),
    }
}

/// Declares the signals from a number on, each as its number.
fn add_signals(
    alloc: Global,
    values: &mut Unfolding,
    signals: &[Signal],
    from: usize,
) -> Result<(), TypeFault>
    ensures added { (env : Env) → StandsFor values.old env
        → OnOk result (StandsFor values.new (with_signals from (drop from signals.now) env)) }
    ensures only { IfErr result (λ fault. fault ≡ TypeFault.Memory) }
{
    for number in from..signals.len() {
        let signal = &signals[number];
        values.add_signal(alloc, &signal.name, signal.truth)?;
    }
    Ok(())
}

/// The line, the engine and the label of an output.
#[derive(Clone, Copy)]
struct Head<'a> {
    line: u32,
    engine: Engine,
    label: &'a Option<Name>,
}

impl Progress {
    /// Checks a struct.
    fn step_struct(
        &mut self,
        alloc: Global,
        line: u32,
        name: &Name,
        fields: &List<FieldDecl>,
    ) -> Result<(), TypeFault>
        ensures reached { (env : Env) → StandsFor self.old.values env
            → Reaches result self.new
            (struct_step line name.now (map field_shape fields.now) (state_of self.old env)) }
        ensures total { OnOk result (self.new.total ≡ self.old.total) }
    {
        self.declared.declare_struct(alloc, line, name, fields)?;
        let names = field_names(alloc, fields.as_slice())?;
        self.values.add_struct(alloc, name, names)?;
        Ok(())
    }

    /// Checks signals.
    fn step_input(
        &mut self,
        alloc: Global,
        line: u32,
        names: &List<Name>,
        tree: &TypeTree,
    ) -> Result<(), TypeFault>
        ensures reached { (env : Env) → StandsFor self.old.values env
            → Reaches result self.new
            (input_step line names.now (type_shape tree.now) (state_of self.old env)) }
        ensures total { OnOk result (self.new.total ≡ self.old.total) }
    {
        let from = self.declared.signals.len();
        self.declared.declare_input(alloc, line, names, tree)?;
        add_signals(
            alloc,
            &mut self.values,
            self.declared.signals.as_slice(),
            from,
        )?;
        Ok(())
    }

    /// Checks a definition.
    fn step_define(
        &mut self,
        alloc: Global,
        line: u32,
        name: &Name,
        expr: &Expr,
    ) -> Result<(), TypeFault>
        ensures reached { (env : Env) → StandsFor self.old.values env
            → Reaches result self.new
            (define_step line name.now (shape expr.now) (state_of self.old env)) }
        ensures total { OnOk result (self.new.total ≡ self.old.total) }
    {
        let kind = check_define(alloc, &self.declared, line, name, expr)?;
        let fault = self
            .values
            .define(alloc, name, expr, MAX_WEIGHT)
            .map_err(|why| too_wide(line, why))?;
        if let Some(fault) = fault {
            return Err(no_range(line, fault));
        }
        self.declared.declare_value(alloc, name, kind)?;
        Ok(())
    }

    /// Adds the weight of an output, if the output has no fault.
    fn count_out(
        &mut self,
        line: u32,
        weight: u32,
        why: Option<NoRange>,
        mixed: bool,
    ) -> Result<(), TypeFault>
        requires { self.old.total + weight ≤ MAX_WEIGHT }
        ensures reached { (env : Env) → StandsFor self.old.values env
            → Reaches result self.new
            (with_out line self.old.labels weight (told_fault why) mixed (state_of self.old env)) }
        ensures light { OnOk result (self.new.total ≤ MAX_WEIGHT) }
    {
        if let Some(why) = why {
            return Err(no_range(line, why));
        }
        if mixed {
            return Err(TypeFault::Tense(line));
        }
        self.total += weight;
        Ok(())
    }

    /// Weighs the formula of an output, whose names and kinds are right, and adds the weight.
    fn count_formula(&mut self, alloc: Global, head: Head<'_>, expr: &Expr) -> Result<(), TypeFault>
        requires { self.old.total ≤ MAX_WEIGHT }
        ensures reached { (env : Env) → StandsFor self.old.values env
            → Reaches result self.new (one_out head.entry.line head.entry.engine self.old.labels
            (value_of (shape expr.now) env) (state_of self.old env)) }
        ensures light { OnOk result (self.new.total ≤ MAX_WEIGHT) }
    {
        let room = MAX_WEIGHT - self.total;
        let found = self
            .values
            .weigh(alloc, expr, room)
            .map_err(|why| too_wide(head.line, why))?;
        let mixed = is_mixed(head.engine, found.tenses);
        self.count_out(head.line, found.weight, found.fault, mixed)
    }

    /// Checks an output with a formula.
    fn step_formula(&mut self, alloc: Global, head: Head<'_>, expr: &Expr) -> Result<(), TypeFault>
        requires { self.old.total ≤ MAX_WEIGHT }
        ensures reached { (env : Env) → StandsFor self.old.values env
            → Reaches result self.new
            (formula_step head.entry.line head.entry.engine head.entry.label.now (shape expr.now)
            (state_of self.old env)) }
        ensures light { OnOk result (self.new.total ≤ MAX_WEIGHT) }
    {
        declare_label(alloc, &mut self.labels, head.line, head.label)?;
        check_formula(alloc, &self.declared, head.line, expr)?;
        self.count_formula(alloc, head, expr)
    }

    /// Weighs the right formula of a contract, and adds the weights of both formulas.
    fn count_right(
        &mut self,
        alloc: Global,
        head: Head<'_>,
        left: Weighed,
        right: &Expr,
    ) -> Result<(), TypeFault>
        requires { self.old.total + left.weight ≤ MAX_WEIGHT }
        ensures reached { (env : Env) (v : Value) → StandsFor self.old.values env → Weighs left v
            → Reaches result self.new (two_out head.entry.line head.entry.engine self.old.labels
            v (value_of (shape right.now) env) (state_of self.old env)) }
        ensures light { OnOk result (self.new.total ≤ MAX_WEIGHT) }
    {
        let room = MAX_WEIGHT - self.total - left.weight;
        let found = self
            .values
            .weigh(alloc, right, room)
            .map_err(|why| too_wide(head.line, why))?;
        let why = first_fault(left.fault, found.fault);
        let mixed = is_mixed(head.engine, left.tenses) || is_mixed(head.engine, found.tenses);
        self.count_out(head.line, left.weight + found.weight, why, mixed)
    }

    /// Weighs the formulas of a contract, whose names and kinds are right, and adds their weights.
    fn count_contract(
        &mut self,
        alloc: Global,
        head: Head<'_>,
        left: &Expr,
        right: &Expr,
    ) -> Result<(), TypeFault>
        requires { self.old.total ≤ MAX_WEIGHT }
        ensures reached { (env : Env) → StandsFor self.old.values env
            → Reaches result self.new (two_out head.entry.line head.entry.engine self.old.labels
            (value_of (shape left.now) env) (value_of (shape right.now) env)
            (state_of self.old env)) }
        ensures light { OnOk result (self.new.total ≤ MAX_WEIGHT) }
    {
        let room = MAX_WEIGHT - self.total;
        let left = self
            .values
            .weigh(alloc, left, room)
            .map_err(|why| too_wide(head.line, why))?;
        self.count_right(alloc, head, left, right)
    }

    /// Checks an output with a contract.
    fn step_contract(
        &mut self,
        alloc: Global,
        head: Head<'_>,
        left: &Expr,
        right: &Expr,
    ) -> Result<(), TypeFault>
        requires { self.old.total ≤ MAX_WEIGHT }
        ensures reached { (env : Env) → StandsFor self.old.values env
            → Reaches result self.new
            (contract_step head.entry.line head.entry.engine head.entry.label.now
            (shape left.now) (shape right.now) (state_of self.old env)) }
        ensures light { OnOk result (self.new.total ≤ MAX_WEIGHT) }
    {
        declare_label(alloc, &mut self.labels, head.line, head.label)?;
        check_contract(alloc, &self.declared, head.line, left, right)?;
        self.count_contract(alloc, head, left, right)
    }

    /// Checks an item.
    pub fn step(&mut self, alloc: Global, item: &Item) -> Result<(), TypeFault>
        requires { self.old.total ≤ MAX_WEIGHT }
        ensures reached { (env : Env) → StandsFor self.old.values env
            → Reaches result self.new (item_step (item_shape item.now) (state_of self.old env)) }
        ensures light { OnOk result (self.new.total ≤ MAX_WEIGHT) }
    {
        let line = item.line;
        match &item.body {
            Body::Struct(name, fields) => self.step_struct(alloc, line, name, fields),
            Body::Input(names, tree) => self.step_input(alloc, line, names, tree),
            Body::Define(name, expr) => self.step_define(alloc, line, name, expr),
            Body::Formula(engine, label, expr) => {
                let engine = *engine;
                self.step_formula(
                    alloc,
                    Head {
                        line,
                        engine,
                        label,
                    },
                    expr,
                )
            }
            Body::Contract(engine, label, left, right) => {
                let engine = *engine;
                self.step_contract(
                    alloc,
                    Head {
                        line,
                        engine,
                        label,
                    },
                    left,
                    right,
                )
            }
        }
    }
}
