//! The declarations of items, and their faults of names and kinds.

ghost use Rattle.std.specs.Prelude.{◌≡◌, [], false, Ok, OnOk, map};
ghost use Rattle.c2po_ast.specs.Shape.{shape};
ghost use Rattle.c2po_ast.specs.ItemShape.{type_shape, field_shape};
ghost use Rattle.c2po_types.specs.Checking.{Gives, Makes, in_turn};
ghost use Rattle.mltl_base.specs.Tables.{is_named};
ghost use Rattle.c2po_types.specs.Items.{nothing, type_kind, signal_truth, with_field, with_struct, with_signal, with_input, define_kind, with_value, with_label, formula_kind, contract_kind};

use crate::operand::{TRUTH, WHOLE, are_same, expect, is_same, set_of};
use crate::{Base, Declarations, Kind, Meaning, NameTable, Scope, Signal, TypeFault, kind_of};
use c2po_ast::{Expr, FieldDecl, TypeTree};
use mltl_base::limits::MAX_SIGNALS;
use mltl_base::{List, Name};
use std::alloc::Global;

/// The name of the integer type.
const INT: &[u8] = b"int";

/// The name of the Boolean type.
const BOOL: &[u8] = b"bool";

/// Returns the kind that a type names.
fn written_kind(line: u32, declared: &Declarations, tree: &TypeTree) -> Result<Kind, TypeFault>
    ensures { Gives result (type_kind line declared.now (type_shape tree.now)) }
{
    match tree {
        TypeTree::Named(name) => {
            if name.bytes() == INT {
                return Ok(WHOLE);
            }
            if name.bytes() == BOOL {
                return Ok(TRUTH);
            }
            match declared.names.find(name) {
                Some(Meaning::Struct(number)) => Ok(Kind {
                    sets: 0,
                    base: Base::Struct(number),
                }),
                _ => Err(TypeFault::Unknown(line)),
            }
        }
        TypeTree::Set(inner) => {
            let kind = written_kind(line, declared, inner)?;
            set_of(kind)
        }
    }
}

/// Adds a field to the fields of a struct.
fn add_field(
    alloc: Global,
    declared: &Declarations,
    line: u32,
    fields: &mut NameTable<Kind>,
    field: &FieldDecl,
) -> Result<(), TypeFault>
    ensures { Makes result fields.new
        (with_field line declared.now (field_shape field.now) fields.old) }
{
    if fields.contains(&field.name) {
        return Err(TypeFault::Twice(line));
    }
    let kind = written_kind(line, declared, &field.kind)?;
    fields.add(alloc, &field.name, kind)?;
    Ok(())
}

/// Returns the fields of a struct with their kinds.
fn fields_of(
    alloc: Global,
    declared: &Declarations,
    line: u32,
    decls: &[FieldDecl],
) -> Result<NameTable<Kind>, TypeFault>
    ensures { Gives result (in_turn (with_field line declared.now) (map field_shape decls.now) []) }
{
    let mut fields = NameTable::new(alloc);
    for decl in decls {
        add_field(alloc, declared, line, &mut fields, decl)?;
    }
    Ok(fields)
}

/// Returns `true` if a signal of this kind is Boolean, and `false` if it is an integer.
fn is_truth(line: u32, kind: Kind) -> Result<bool, TypeFault>
    ensures { Gives result (signal_truth line kind) }
{
    if is_same(kind, TRUTH) {
        return Ok(true);
    }
    if is_same(kind, WHOLE) {
        return Ok(false);
    }
    Err(TypeFault::Kind(line))
}

impl Declarations {
    /// Makes the declarations before the first item. Doesn't allocate.
    pub fn new(alloc: Global) -> Self
        ensures { result ≡ nothing }
    {
        Declarations {
            names: NameTable::new(alloc),
            structs: List::new(alloc),
            signals: List::new(alloc),
        }
    }

    /// Declares a struct.
    pub fn declare_struct(
        &mut self,
        alloc: Global,
        line: u32,
        name: &Name,
        fields: &List<FieldDecl>,
    ) -> Result<(), TypeFault>
        ensures { Makes result self.new
            (with_struct line name.now (map field_shape fields.now) self.old) }
    {
        if self.names.contains(name) {
            return Err(TypeFault::Twice(line));
        }
        let table = fields_of(alloc, self, line, fields.as_slice())?;
        let number = u32::try_from(self.structs.len()).map_err(|_| TypeFault::Memory)?;
        self.names.add(alloc, name, Meaning::Struct(number))?;
        self.structs.push(table)?;
        Ok(())
    }

    /// Declares a signal.
    fn declare_signal(
        &mut self,
        alloc: Global,
        line: u32,
        truth: bool,
        name: &Name,
    ) -> Result<(), TypeFault>
        ensures { Makes result self.new (with_signal line truth name.now self.old) }
    {
        if self.names.contains(name) {
            return Err(TypeFault::Twice(line));
        }
        if self.signals.len() >= MAX_SIGNALS as usize {
            return Err(TypeFault::Signals(line));
        }
        let kind = if truth { TRUTH } else { WHOLE };
        self.names.add(alloc, name, Meaning::Value(kind))?;
        let signal = Signal {
            name: name.copy(),
            truth,
        };
        self.signals.push(signal)?;
        Ok(())
    }

    /// Declares signals of one kind.
    fn declare_signals(
        &mut self,
        alloc: Global,
        line: u32,
        truth: bool,
        names: &[Name],
    ) -> Result<(), TypeFault>
        ensures { Makes result self.new (in_turn (with_signal line truth) names.now self.old) }
    {
        for name in names {
            self.declare_signal(alloc, line, truth, name)?;
        }
        Ok(())
    }

    /// Declares the signals of an item.
    pub fn declare_input(
        &mut self,
        alloc: Global,
        line: u32,
        names: &List<Name>,
        tree: &TypeTree,
    ) -> Result<(), TypeFault>
        ensures { Makes result self.new (with_input line names.now (type_shape tree.now) self.old) }
    {
        let kind = written_kind(line, self, tree)?;
        let truth = is_truth(line, kind)?;
        self.declare_signals(alloc, line, truth, names.as_slice())
    }

    /// Declares a defined value under a new name.
    pub fn declare_value(&mut self, alloc: Global, name: &Name, kind: Kind) -> Result<(), TypeFault>
        requires { is_named name.now self.old.names ≡ false }
        ensures { Makes result self.new (Ok (with_value name.now kind self.old)) }
    {
        self.names.add(alloc, name, Meaning::Value(kind))?;
        Ok(())
    }
}

/// Returns the kind of a definition, in which its own name isn't visible.
pub fn check_define(
    alloc: Global,
    declared: &Declarations,
    line: u32,
    name: &Name,
    expr: &Expr,
) -> Result<Kind, TypeFault>
    ensures kind { Gives result (define_kind line name.now (shape expr.now) declared.now) }
    ensures fresh { OnOk result (is_named name.now declared.now.names ≡ false) }
{
    let kind = kind_of(alloc, &Scope::Items(declared), expr)?;
    if declared.names.contains(name) {
        return Err(TypeFault::Twice(line));
    }
    Ok(kind)
}

/// Adds the label of an output, if it has one, to the labels so far.
pub fn declare_label(
    alloc: Global,
    labels: &mut NameTable<()>,
    line: u32,
    label: &Option<Name>,
) -> Result<(), TypeFault>
    ensures { Makes result labels.new (with_label line label.now labels.old) }
{
    let Some(name) = label else {
        return Ok(());
    };
    if labels.contains(name) {
        return Err(TypeFault::Twice(line));
    }
    labels.add(alloc, name, ())?;
    Ok(())
}

/// Checks that the formula of an output is Boolean.
pub fn check_formula(
    alloc: Global,
    declared: &Declarations,
    line: u32,
    expr: &Expr,
) -> Result<Kind, TypeFault>
    ensures { Gives result (formula_kind line (shape expr.now) declared.now) }
{
    let found = kind_of(alloc, &Scope::Items(declared), expr)?;
    expect(line, is_same(found, TRUTH), TRUTH)
}

/// Checks that both formulas of a contract are Boolean.
pub fn check_contract(
    alloc: Global,
    declared: &Declarations,
    line: u32,
    left: &Expr,
    right: &Expr,
) -> Result<Kind, TypeFault>
    ensures { Gives result (contract_kind line (shape left.now) (shape right.now) declared.now) }
{
    let scope = Scope::Items(declared);
    let left = kind_of(alloc, &scope, left)?;
    let right = kind_of(alloc, &scope, right)?;
    expect(line, are_same(left, right, TRUTH), TRUTH)
}
