//! The kinds of expressions.

ghost use Rattle.std.specs.Prelude.{◌≡◌};
ghost use Rattle.c2po_ast.specs.Shape.{shape, shapes};
ghost use Rattle.c2po_types.specs.Checking.{Gives, GivesAs};
ghost use Rattle.c2po_types.specs.Kinds as kinds;
ghost use Rattle.c2po_types.specs.Scopes.{meaning_of, visible};
ghost use Rattle.c2po_types.specs.Expressions.{kind_of as kind_in, operand_kinds as kinds_in, infix_kind, quantifier_kind, window_kind, within_bounds};

use crate::operand::{
    TRUTH, WHOLE, are_same, build, expect, gather, is_same, member_of, pick, value_of,
};
use crate::{Kind, Scope, TypeFault};
use c2po_ast::{Expr, Node};
use mltl_base::Name;
use mltl_base::limits::{MAX_BOUND, MAX_COUNT};
use std::alloc::Global;

/// Returns the kind of a formula over an interval, if `holds` says that its operands are Booleans.
fn window(line: u32, low: u64, high: u64, holds: bool) -> Result<Kind, TypeFault>
    ensures { Gives result (within_bounds line low high (kinds.expected line holds kinds.truth)) }
{
    if low > high || high > u64::from(MAX_BOUND) {
        return Err(TypeFault::Bounds(line));
    }
    expect(line, holds, TRUTH)
}

/// Returns the kinds of operands with their lines.
#[cycle(kinds)]
fn kinds_of(
    alloc: Global,
    scope: &Scope<'_>,
    operands: &[Expr],
) -> Result<Vec<(u32, Kind)>, TypeFault>
    ensures { GivesAs (λ v. v.items) result (kinds_in (shapes operands.now) (visible scope.now)) }
{
    let mut kinds = Vec::new(alloc);
    for operand in operands {
        let kind = kind_of(alloc, scope, operand)?;
        kinds.push((operand.line, kind))?;
    }
    Ok(kinds)
}

/// Returns the kind of a quantifier over a set of this kind, from its variable, its number and its
/// body.
#[cycle(kinds)]
fn quantified(
    alloc: Global,
    scope: &Scope<'_>,
    line: u32,
    variable: &Name,
    set: Kind,
    number: u64,
    body: &Expr,
) -> Result<Kind, TypeFault>
    ensures { Gives result
        (quantifier_kind line variable.now set number (shape body.now) (visible scope.now)) }
{
    let member = member_of(line, set)?;
    if scope.meaning(variable).is_some() {
        return Err(TypeFault::Twice(line));
    }
    if number > u64::from(MAX_COUNT) {
        return Err(TypeFault::Bounds(line));
    }
    let within = Scope::Within(&*variable, member, &*scope);
    let kind = kind_of(alloc, &within, body)?;
    expect(line, is_same(kind, TRUTH), TRUTH)
}

/// Returns the kind of a struct's value, from the struct's name and the operands.
fn built(
    line: u32,
    scope: &Scope<'_>,
    operands: &[(u32, Kind)],
    name: &Name,
) -> Result<Kind, TypeFault>
    ensures { Gives result (kinds.known_built line (visible scope.now).declared
        operands.now (meaning_of name.now (visible scope.now))) }
{
    build(line, scope.declared(), operands, scope.meaning(name))
}

/// Returns the kind of an operator between integers, from the kind of its left operand and its
/// right operand.
#[cycle(kinds)]
fn numbers(
    alloc: Global,
    scope: &Scope<'_>,
    line: u32,
    left: Kind,
    right: &Expr,
    given: Kind,
) -> Result<Kind, TypeFault>
    ensures { Gives result
        (infix_kind line kinds.whole given left (shape right.now) (visible scope.now)) }
{
    let right = kind_of(alloc, scope, right)?;
    expect(line, are_same(left, right, WHOLE), given)
}

/// Returns the kind of an operator between Booleans, from the kind of its left operand and its
/// right operand.
#[cycle(kinds)]
fn truths(
    alloc: Global,
    scope: &Scope<'_>,
    line: u32,
    left: Kind,
    right: &Expr,
) -> Result<Kind, TypeFault>
    ensures { Gives result
        (infix_kind line kinds.truth kinds.truth left (shape right.now) (visible scope.now)) }
{
    let right = kind_of(alloc, scope, right)?;
    expect(line, are_same(left, right, TRUTH), TRUTH)
}

/// Returns the kind of a temporal operator over one operand.
#[cycle(kinds)]
fn in_window(
    alloc: Global,
    scope: &Scope<'_>,
    line: u32,
    low: u64,
    high: u64,
    operand: &Expr,
) -> Result<Kind, TypeFault>
    ensures { Gives result (window_kind line low high (shape operand.now) (visible scope.now)) }
{
    let kind = kind_of(alloc, scope, operand)?;
    window(line, low, high, is_same(kind, TRUTH))
}

/// Returns the kind of an expression in a scope.
///
/// Errors: the first fault of names and kinds, with the line of its expression; operands come
/// before operators, from left to right; `Memory` when out of memory.
#[cycle(kinds)]
pub fn kind_of(alloc: Global, scope: &Scope<'_>, expr: &Expr) -> Result<Kind, TypeFault>
    ensures kind { Gives result (kind_in (shape expr.now) (visible scope.now)) }
{
    let line = expr.line;
    match &expr.node {
        Node::Number(_) => Ok(WHOLE),
        Node::Truth(_) => Ok(TRUTH),
        Node::Ref(name) => value_of(line, scope.meaning(name)),
        Node::Build(name, arguments) => {
            let kinds = kinds_of(alloc, scope, arguments.as_slice())?;
            built(line, scope, kinds.as_slice(), name)
        }
        Node::Group(elements) => {
            let kinds = kinds_of(alloc, scope, elements.as_slice())?;
            gather(line, kinds.as_slice())
        }
        Node::Pick(a, field) => pick(line, scope.declared(), field, kind_of(alloc, scope, a)?),
        Node::Minus(a) => expect(line, is_same(kind_of(alloc, scope, a)?, WHOLE), WHOLE),
        Node::Not(a) => expect(line, is_same(kind_of(alloc, scope, a)?, TRUTH), TRUTH),
        Node::Arith(_, a, b) => numbers(alloc, scope, line, kind_of(alloc, scope, a)?, b, WHOLE),
        Node::Compare(_, a, b) => numbers(alloc, scope, line, kind_of(alloc, scope, a)?, b, TRUTH),
        Node::Logic(_, a, b) => truths(alloc, scope, line, kind_of(alloc, scope, a)?, b),
        Node::Window(_, low, high, a) => in_window(alloc, scope, line, *low, *high, a),
        Node::Between(_, low, high, a, b) => {
            let left = kind_of(alloc, scope, a)?;
            let right = kind_of(alloc, scope, b)?;
            window(line, *low, *high, are_same(left, right, TRUTH))
        }
        Node::Each(x, set, e) => {
            quantified(alloc, scope, line, x, kind_of(alloc, scope, set)?, 0, e)
        }
        Node::Exists(x, set, e) => {
            quantified(alloc, scope, line, x, kind_of(alloc, scope, set)?, 0, e)
        }
        Node::Count(_, x, set, n, e) => {
            quantified(alloc, scope, line, x, kind_of(alloc, scope, set)?, *n, e)
        }
    }
}
