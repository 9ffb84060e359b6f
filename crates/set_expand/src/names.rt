//! Names with their meanings.

ghost use Rattle.std.specs.Prelude.{◌≡◌, ◌<◌, ℕ, List as Seq, [], length, map, position, OnOk, IfOk};
ghost use Rattle.std.specs.Str.{bytes_eq};
ghost use Rattle.c2po_ast.specs.Shape.{shape};
ghost use Rattle.c2po_ast.specs.ItemShape.{field_shape};
ghost use Rattle.c2po_types.specs.Environment.{declare, fields, fields_in, no_names, signal_value, value, value_of};
ghost use Rattle.c2po_ast.specs.declared.nodes.Plain.{Plain};
ghost use Rattle.set_expand.specs.Heads.{NamedBelow, named_meaning};
ghost use Rattle.set_expand.specs.Nodes.{HaveNodes, IsKept, MadeAs, NamedKept};
ghost use Rattle.set_expand.specs.Names.{EntryBelow, HasFields, IsEarly, SignalsBelow, env_now, env_of, meaning, with_name};

use crate::nodes::Made;
use crate::scope::{Named, Scope};
use c2po_ast::{Expr, FieldDecl, field_names};
use c2po_types::fields::Fields;
use c2po_types::meanings::Meanings;
use mltl_base::{List, Name};
use std::alloc::{AllocError, Global};
use std::marker::Model;

/// The meaning of a name.
#[derive(Clone, Copy)]
pub enum Entry<'a> {
    /// A struct, with its fields and its number.
    Struct(&'a List<FieldDecl>, usize),
    /// A signal, Boolean or integer, by its number.
    Signal(bool, u32),
    /// A definition: its expression, the number of names that the expression sees, and its node, if
    /// it has been made.
    Defined(&'a Expr, usize, Option<Made>),
}

/// The meaning of a name, and the number of names that were declared before it.
#[derive(Clone, Copy)]
pub struct Declared<'a> {
    pub number: usize,
    pub entry: Entry<'a>,
}

/// The names of a specification in the order of declaration, which contracts see as a table of
/// meanings.
#[derive(Drop)]
pub struct Names<'a> {
    table: Meanings<Declared<'a>>,
    structs: List<Fields>,
}

impl<'a> Model for Names<'a> {
    ghost use Rattle.mltl_base.specs.Tables.{Table};
    ghost use Rattle.c2po_ast.specs.contracts.item.TypeTree as types;
    ghost use Rattle.c2po_ast.specs.contracts.tree.Expr as exprs;
    ghost use Rattle.set_expand.specs.declared.names.Declared.{Declared as Meaning};
    ghost use Rattle.set_expand.specs.Names.{AreNumbered};
    ghost use Rattle.std.specs.Coded.{codes};

    ghost Value = { Table Meaning };

    ghost coded = { Prim.hlevel (codes, types.the_row.coded, exprs.the_row.coded) };

    ghost view = { λ names. names.table };

    ghost invariant = { λ names. AreNumbered names.table names.structs };
}

/// Appends a name, unless the table has it.
fn put<'a>(
    table: &mut Meanings<Declared<'a>>,
    alloc: Global,
    name: &Name,
    entry: Entry<'a>,
) -> Result<(), AllocError>
    ensures { OnOk result (table.new ≡ with_name name.now entry.entry table.old) }
{
    if table.contains(name) {
        return Ok(());
    }
    let number = table.len();
    table.add(alloc, name, Declared { number, entry })?;
    Ok(())
}

impl<'a> Names<'a> {
    /// Makes a table without names. Doesn't allocate.
    pub fn new(alloc: Global) -> Self
        ensures { result ≡ [] }
    {
        Names {
            table: Meanings::new(alloc),
            structs: List::new(alloc),
        }
    }

    /// Returns the number of names.
    pub fn count(&self) -> usize
        ensures number { result ≡ length self.now }
        ensures all { env_of self.now result ≡ env_now self.now }
    {
        self.table.len()
    }

    /// Returns the meaning of a name among the first `before` names, or `Nothing` if it isn't one
    /// of them.
    pub fn find(&self, before: usize, name: &Name) -> Named<'a>
        ensures means { named_meaning self.now result ≡ env_of self.now before name.now }
        ensures below { (n : ℕ) → SignalsBelow n self.now → NamedBelow n result }
        ensures kept { (nodes : Seq Plain) → HaveNodes nodes self.now
            → NamedKept nodes self.now result }
    {
        match self.table.find(name) {
            Some(declared) if declared.number < before => match declared.entry {
                Entry::Struct(fields, _) => Named::Struct(fields),
                Entry::Signal(truth, number) => Named::Signal(truth, number),
                Entry::Defined(expr, count, made) => Named::Open(Scope::First(count), expr, made),
            },
            _ => Named::Nothing,
        }
    }

    /// Returns the place of a field of a struct, if the struct is among the first `before` names.
    pub fn place_of(&self, before: usize, whole: &Name, field: &Name) -> Option<usize>
        ensures { result ≡ position (bytes_eq field.now)
            (fields_in (env_of self.now before whole.now)) }
    {
        let Some(declared) = self.table.find(whole) else {
            return None;
        };
        if declared.number >= before {
            return None;
        }
        match declared.entry {
            Entry::Struct(_, number) => self.structs.get(number).place(field),
            Entry::Signal(..) | Entry::Defined(..) => None,
        }
    }

    /// Returns the entry of a definition: the value that its expression leads to, or its node, if
    /// it has been made.
    fn entry_of(
        &self,
        e: &'a Expr,
        count: usize,
        made: Option<Made>,
    ) -> Result<Entry<'a>, AllocError>
        requires count { count ≡ length self.now }
        requires all { env_of self.now count ≡ env_now self.now }
        ensures means { IfOk result (λ entry. meaning self.now entry
            ≡ value (value_of (shape e.now) (env_now self.now))) }
        ensures early { IfOk result (IsEarly (length self.now)) }
        ensures fields { (structs : Seq (Seq (Seq ℕ))) → IfOk result (HasFields structs) }
        ensures below { (n : ℕ) → SignalsBelow n self.now → IfOk result (EntryBelow n) }
        ensures kept { (nodes : Seq Plain) → HaveNodes nodes self.now
            → MadeAs nodes (value_of (shape e.now) (env_now self.now)) made
            → IfOk result (IsKept nodes self.now) }
    {
        if made.is_some() {
            return Ok(Entry::Defined(e, count, made));
        }
        let scope = Scope::First(count);
        match self.follow(u32::MAX, &scope, e)? {
            Named::Signal(truth, number) => Ok(Entry::Signal(truth, number)),
            Named::Open(Scope::First(before), expr, made) if before <= count => {
                Ok(Entry::Defined(expr, before, made))
            }
            _ => Ok(Entry::Defined(e, count, None)),
        }
    }

    /// Adds a struct. A known name keeps its meaning.
    pub fn with_struct(
        self,
        alloc: Global,
        name: &Name,
        decls: &'a List<FieldDecl>,
    ) -> Result<Names<'a>, AllocError>
        ensures env { IfOk result (λ names. env_now names ≡ declare name.now
            (fields (map (λ f. f.name) (map field_shape decls.now))) (env_now self.entry)) }
        ensures below { (n : ℕ) → SignalsBelow n self.entry → IfOk result (SignalsBelow n) }
        ensures kept { (nodes : Seq Plain) → HaveNodes nodes self.entry
            → IfOk result (HaveNodes nodes) }
    {
        let Names {
            mut table,
            mut structs,
        } = self;
        let number = structs.len();
        let names = field_names(alloc, decls.as_slice())?;
        let own = Fields::of(alloc, names)?;
        structs.push(own)?;
        put(&mut table, alloc, name, Entry::Struct(decls, number))?;
        Ok(Names { table, structs })
    }

    /// Adds a signal, Boolean or integer, by its number. A known name keeps its meaning.
    pub fn with_signal(
        self,
        alloc: Global,
        name: &Name,
        truth: bool,
        number: u32,
    ) -> Result<Names<'a>, AllocError>
        ensures env { IfOk result (λ names. env_now names ≡ declare name.now
            (value (signal_value truth number)) (env_now self.entry)) }
        ensures below { (n : ℕ) → SignalsBelow n self.entry → number < n
            → IfOk result (SignalsBelow n) }
        ensures kept { (nodes : Seq Plain) → HaveNodes nodes self.entry
            → IfOk result (HaveNodes nodes) }
    {
        let Names { mut table, structs } = self;
        put(&mut table, alloc, name, Entry::Signal(truth, number))?;
        Ok(Names { table, structs })
    }

    /// Adds a definition with its node, if it has been made. A known name keeps its meaning.
    pub fn with_definition(
        self,
        alloc: Global,
        name: &Name,
        e: &'a Expr,
        made: Option<Made>,
    ) -> Result<Names<'a>, AllocError>
        ensures env { IfOk result (λ names. env_now names ≡ declare name.now
            (value (value_of (shape e.now) (env_now self.entry))) (env_now self.entry)) }
        ensures below { (n : ℕ) → SignalsBelow n self.entry → IfOk result (SignalsBelow n) }
        ensures kept { (nodes : Seq Plain) → HaveNodes nodes self.entry
            → MadeAs nodes (value_of (shape e.now) (env_now self.entry)) made
            → IfOk result (HaveNodes nodes) }
    {
        let count = self.count();
        let entry = self.entry_of(e, count, made)?;
        let Names { mut table, structs } = self;
        put(&mut table, alloc, name, entry)?;
        Ok(Names { table, structs })
    }
}
