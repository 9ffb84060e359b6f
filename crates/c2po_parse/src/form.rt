//! The forms of items, section by section.

ghost use Rattle.std.specs.Prelude.{◌≡◌, ◌+◌, ◌≤◌, ◌<◌, ◌++◌, ◌∷◌, [], suc, length, codes, map, option_map, Some, MatchResult, IfSome};
ghost use Rattle.c2po_parse.specs.declared.tree_fault.TreeFault.TheVariants.{NoTree};
ghost use Rattle.c2po_parse.specs.Gives.{GivesTree};
ghost use Rattle.c2po_ast.specs.ItemShape.{type_shape, field_shape, body_shape};
ghost use Rattle.c2po_parse.specs.Splitting.{at_end};
ghost use Rattle.c2po_parse.specs.Grammar.{fields_for};
ghost use Rattle.c2po_parse.specs.Forms.{type_within, names_within, names_after, typed_at, fields_within, fields_after, struct_item, input_of, define_of, label_at, contract_of, output_item, body_of};

use crate::front::{take_name, take_sign};
use crate::section::{Section, promise_place};
use crate::{TreeFault, read_expression};
use c2po_ast::{Body, FieldDecl, TypeTree, copy_type};
use c2po_lexer::{Keyword, Sign, Token, What};
use mltl_base::limits::MAX_ITEM_TOKENS;
use mltl_base::{Engine, List, Name};
use std::alloc::Global;

/// Returns the room for nested or repeated steps that is left after one step.
fn deeper(room: usize) -> Result<usize, TreeFault>
    ensures { MatchResult result (λ left. room ≡ suc left) (λ e. (room ≡ 0) × (e ≡ NoTree)) }
{
    room.checked_sub(1).ok_or(TreeFault::NoTree)
}

/// Returns the name of the Boolean type.
fn bool_name() -> Name
    ensures { result ≡ codes "bool" }
{
    Name::of(b"bool").unwrap()
}

/// Returns the name of the integer type.
fn int_name() -> Name
    ensures { result ≡ codes "int" }
{
    Name::of(b"int").unwrap()
}

/// Reads a type, and returns it with the tokens after it.
#[tactic(auto, unfolding(crate::specs::Forms::type_within))]
fn take_type(
    alloc: Global,
    room: usize,
    tokens: &[Token],
) -> Result<(TypeTree, &[Token]), TreeFault>
    ensures { GivesTree (λ x. (type_shape x.0, x.1.now)) result (type_within room tokens.now) }
{
    let room = deeper(room)?;
    let [first, rest @ ..] = tokens else {
        return Err(TreeFault::NoTree);
    };
    match &first.what {
        What::Word(name) => Ok((TypeTree::Named(name.copy()), rest)),
        What::Reserved(Keyword::Bool) => Ok((TypeTree::Named(bool_name()), rest)),
        What::Reserved(Keyword::Int) => Ok((TypeTree::Named(int_name()), rest)),
        What::Reserved(Keyword::Set) => {
            let rest = take_sign(Sign::Less, rest).ok_or(TreeFault::NoTree)?;
            let (inner, rest) = take_type(alloc, room, rest)?;
            let rest = take_sign(Sign::Greater, rest).ok_or(TreeFault::NoTree)?;
            Ok((TypeTree::Set(Box::new(alloc, inner)?), rest))
        }
        _ => Err(TreeFault::NoTree),
    }
}

/// Appends names with commas between them to the names that were read, and returns the tokens after
/// them.
#[tactic(auto, unfolding(crate::specs::Forms::names_within))]
fn take_names<'a>(
    room: usize,
    names: &mut List<Name>,
    tokens: &'a [Token],
) -> Result<&'a [Token], TreeFault>
    ensures { GivesTree (λ rest. (names.new, rest.now)) result
        (names_after names.old (names_within room tokens.now)) }
{
    let room = deeper(room)?;
    let (name, rest) = take_name(tokens).ok_or(TreeFault::NoTree)?;
    names.push(name)?;
    match take_sign(Sign::Comma, rest) {
        Some(more) => take_names(room, names, more),
        None => Ok(rest),
    }
}

/// Reads names, `:` and their type, and returns them with the tokens after them.
fn take_typed(
    alloc: Global,
    tokens: &[Token],
) -> Result<(List<Name>, TypeTree, &[Token]), TreeFault>
    ensures { GivesTree (λ x. (x.0, type_shape x.1, x.2.now)) result (typed_at tokens.now) }
{
    let mut names = List::new(alloc);
    let rest = take_names(tokens.len(), &mut names, tokens)?;
    let rest = take_sign(Sign::Colon, rest).ok_or(TreeFault::NoTree)?;
    let (kind, rest) = take_type(alloc, rest.len(), rest)?;
    Ok((names, kind, rest))
}

/// Appends a field of this type for each name.
fn add_fields(
    alloc: Global,
    fields: &mut List<FieldDecl>,
    names: &[Name],
    kind: &TypeTree,
) -> Result<(), TreeFault>
    ensures { GivesTree (λ _. map field_shape fields.new) result
        (Some (map field_shape fields.old ++ fields_for names.now (type_shape kind.now))) }
{
    for name in names {
        let field = FieldDecl {
            name: name.copy(),
            kind: copy_type(alloc, kind)?,
        };
        fields.push(field)?;
    }
    Ok(())
}

/// Appends fields up to the closing brace to the fields that were read, and returns the tokens
/// after the brace.
#[tactic(auto, unfolding(crate::specs::Forms::fields_within))]
fn take_fields<'a>(
    alloc: Global,
    room: usize,
    fields: &mut List<FieldDecl>,
    tokens: &'a [Token],
) -> Result<&'a [Token], TreeFault>
    ensures { GivesTree (λ rest. (map field_shape fields.new, rest.now)) result
        (fields_after (map field_shape fields.old) (fields_within room tokens.now)) }
{
    let room = deeper(room)?;
    let (names, kind, rest) = take_typed(alloc, tokens)?;
    let rest = take_sign(Sign::Semicolon, rest).ok_or(TreeFault::NoTree)?;
    add_fields(alloc, fields, names.as_slice(), &kind)?;
    match take_sign(Sign::RightCurly, rest) {
        Some(rest) => Ok(rest),
        None => take_fields(alloc, room, fields, rest),
    }
}

/// Returns the body if no token is left, else `NoTree`.
fn whole_body(body: Body, rest: &[Token]) -> Result<Body, TreeFault>
    ensures { GivesTree body_shape result (at_end (body_shape body) rest.now) }
{
    match rest {
        [] => Ok(body),
        _ => Err(TreeFault::NoTree),
    }
}

/// Reads a struct: its name, `:`, and its fields in braces.
#[tactic(auto, unfolding(crate::specs::Forms::struct_item))]
fn struct_body(alloc: Global, tokens: &[Token]) -> Result<Body, TreeFault>
    ensures { GivesTree body_shape result (struct_item tokens.now) }
{
    let (name, rest) = take_name(tokens).ok_or(TreeFault::NoTree)?;
    let rest = take_sign(Sign::Colon, rest).ok_or(TreeFault::NoTree)?;
    let rest = take_sign(Sign::LeftCurly, rest).ok_or(TreeFault::NoTree)?;
    let mut fields = List::new(alloc);
    let rest = take_fields(alloc, rest.len(), &mut fields, rest)?;
    whole_body(Body::Struct(name, fields), rest)
}

/// Reads signals: their names, `:`, and their type.
#[tactic(auto, unfolding(crate::specs::Forms::input_of))]
fn input_body(alloc: Global, tokens: &[Token]) -> Result<Body, TreeFault>
    ensures { GivesTree body_shape result (input_of tokens.now) }
{
    let (names, kind, rest) = take_typed(alloc, tokens)?;
    whole_body(Body::Input(names, kind), rest)
}

/// Reads a definition: its name, `:=`, and an expression.
#[tactic(auto, unfolding(crate::specs::Forms::define_of))]
fn define_body(alloc: Global, tokens: &[Token]) -> Result<Body, TreeFault>
    requires { length tokens.now ≤ MAX_ITEM_TOKENS }
    ensures { GivesTree body_shape result (define_of tokens.now) }
{
    let (name, rest) = take_name(tokens).ok_or(TreeFault::NoTree)?;
    let rest = take_sign(Sign::Becomes, rest).ok_or(TreeFault::NoTree)?;
    let expr = read_expression(alloc, rest)?;
    Ok(Body::Define(name, expr))
}

/// Reads the label at the front, if there is one, and returns it with the tokens after it.
#[tactic(auto, unfolding(crate::specs::Forms::label_at))]
fn take_label(tokens: &[Token]) -> (Option<Name>, &[Token])
    ensures label { (result.0, result.1.now) ≡ label_at tokens.now }
    ensures shorter { length result.1.now ≤ length tokens.now }
{
    let Some((name, rest)) = take_name(tokens) else {
        return (None, tokens);
    };
    match take_sign(Sign::Colon, rest) {
        Some(rest) => (Some(name), rest),
        None => (None, tokens),
    }
}

/// Reads a contract: assumption and guarantee, without a second `=>`.
fn contract_body(
    alloc: Global,
    engine: Engine,
    label: Option<Name>,
    left: &[Token],
    right: &[Token],
) -> Result<Body, TreeFault>
    requires left { length left.now ≤ MAX_ITEM_TOKENS }
    requires right { length right.now ≤ MAX_ITEM_TOKENS }
    ensures { GivesTree body_shape result (contract_of engine label left.now right.now) }
{
    if promise_place(right).is_some() {
        return Err(TreeFault::NoTree);
    }
    let assumption = read_expression(alloc, left)?;
    let guarantee = read_expression(alloc, right)?;
    Ok(Body::Contract(engine, label, assumption, guarantee))
}

/// Reads an output: an optional label, and a formula or a contract.
#[tactic(auto, unfolding(crate::specs::Forms::output_item))]
fn output_body(alloc: Global, engine: Engine, tokens: &[Token]) -> Result<Body, TreeFault>
    requires { length tokens.now ≤ MAX_ITEM_TOKENS }
    ensures { GivesTree body_shape result (output_item engine tokens.now) }
{
    let (label, rest) = take_label(tokens);
    match promise_place(rest) {
        Some(place) => contract_body(alloc, engine, label, &rest[..place], &rest[place + 1..]),
        None => {
            let expr = read_expression(alloc, rest)?;
            Ok(Body::Formula(engine, label, expr))
        }
    }
}

/// Reads the body of an item in a section.
pub fn read_body(alloc: Global, section: Section, tokens: &[Token]) -> Result<Body, TreeFault>
    requires { length tokens.now ≤ MAX_ITEM_TOKENS }
    ensures { GivesTree body_shape result (body_of section tokens.now) }
{
    match section {
        Section::Struct => struct_body(alloc, tokens),
        Section::Input => input_body(alloc, tokens),
        Section::Define => define_body(alloc, tokens),
        Section::Output(engine) => output_body(alloc, engine, tokens),
    }
}
