//! Copies of items.

ghost use Rattle.std.specs.Prelude.{◌≡◌, map, IfOk};
ghost use Rattle.c2po_ast.specs.ItemShape.{type_shape, field_shape, body_shape, item_shape, spec_shape};

use super::expression::copy_expr;
use crate::{Body, FieldDecl, Item, SpecTree, TypeTree};
use mltl_base::{List, Name};
use std::alloc::{AllocError, Global};

/// Returns a copy of a type.
pub fn copy_type(alloc: Global, tree: &TypeTree) -> Result<TypeTree, AllocError>
    ensures { IfOk result (λ copy. type_shape copy ≡ type_shape tree.now) }
{
    match tree {
        TypeTree::Named(name) => Ok(TypeTree::Named(name.copy())),
        TypeTree::Set(inner) => {
            let inner = copy_type(alloc, inner)?;
            let inner = Box::new(alloc, inner)?;
            Ok(TypeTree::Set(inner))
        }
    }
}

/// Returns a copy of a field.
fn copy_field(alloc: Global, field: &FieldDecl) -> Result<FieldDecl, AllocError>
    ensures { IfOk result (λ copy. field_shape copy ≡ field_shape field.now) }
{
    let kind = copy_type(alloc, &field.kind)?;
    Ok(FieldDecl {
        name: field.name.copy(),
        kind,
    })
}

/// Returns copies of fields in order.
fn copy_fields(alloc: Global, fields: &[FieldDecl]) -> Result<List<FieldDecl>, AllocError>
    ensures { IfOk result (λ copies. map field_shape copies ≡ map field_shape fields.now) }
{
    let mut copies = List::new(alloc);
    for field in fields {
        let copy = copy_field(alloc, field)?;
        copies.push(copy)?;
    }
    Ok(copies)
}

/// Returns the names of fields in order.
pub fn field_names(alloc: Global, fields: &[FieldDecl]) -> Result<List<Name>, AllocError>
    ensures { IfOk result (λ names. names ≡ map (λ f. f.name) (map field_shape fields.now)) }
{
    let mut names = List::new(alloc);
    for field in fields {
        names.push(field.name.copy())?;
    }
    Ok(names)
}

/// Returns copies of names in order.
fn copy_names(alloc: Global, names: &[Name]) -> Result<List<Name>, AllocError>
    ensures { IfOk result (λ copies. copies ≡ names.now) }
{
    let mut copies = List::new(alloc);
    for name in names {
        copies.push(name.copy())?;
    }
    Ok(copies)
}

/// Returns a copy of a label, if there is one.
fn copy_label(label: &Option<Name>) -> Option<Name>
    ensures { result ≡ label.now }
{
    match label {
        Some(name) => Some(name.copy()),
        None => None,
    }
}

/// Returns a copy of a body.
fn copy_body(alloc: Global, body: &Body) -> Result<Body, AllocError>
    ensures { IfOk result (λ copy. body_shape copy ≡ body_shape body.now) }
{
    match body {
        Body::Struct(name, fields) => {
            let fields = copy_fields(alloc, fields.as_slice())?;
            Ok(Body::Struct(name.copy(), fields))
        }
        Body::Input(names, kind) => {
            let names = copy_names(alloc, names.as_slice())?;
            let kind = copy_type(alloc, kind)?;
            Ok(Body::Input(names, kind))
        }
        Body::Define(name, expr) => {
            let expr = copy_expr(alloc, expr)?;
            Ok(Body::Define(name.copy(), expr))
        }
        Body::Formula(engine, label, expr) => {
            let expr = copy_expr(alloc, expr)?;
            Ok(Body::Formula(*engine, copy_label(label), expr))
        }
        Body::Contract(engine, label, left, right) => {
            let left = copy_expr(alloc, left)?;
            let right = copy_expr(alloc, right)?;
            Ok(Body::Contract(*engine, copy_label(label), left, right))
        }
    }
}

/// Returns a copy of an item.
fn copy_item(alloc: Global, item: &Item) -> Result<Item, AllocError>
    ensures { IfOk result (λ copy. item_shape copy ≡ item_shape item.now) }
{
    let body = copy_body(alloc, &item.body)?;
    Ok(Item {
        line: item.line,
        body,
    })
}

/// Returns a copy of the tree of a specification.
pub fn copy_tree(alloc: Global, tree: &SpecTree) -> Result<SpecTree, AllocError>
    ensures { IfOk result (λ copy. spec_shape copy ≡ spec_shape tree.now) }
{
    let mut items = List::new(alloc);
    for item in tree.items.as_slice() {
        let copy = copy_item(alloc, item)?;
        items.push(copy)?;
    }
    Ok(SpecTree { items })
}
