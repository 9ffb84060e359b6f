//! The reading of an expression from the left, by climbing the levels of its operators.

ghost use Rattle.std.specs.Prelude.{◌≡◌, ◌+◌, ◌<◌, ◌≤◌, length, suc, map, MatchResult};
ghost use Rattle.c2po_parse.specs.declared.tree_fault.TreeFault.TheVariants.{NoTree};
ghost use Rattle.c2po_ast.specs.Shape.{shape};
ghost use Rattle.c2po_parse.specs.Gives.{GivesTree};
ghost use Rattle.c2po_parse.specs.Tokens.{right_level};
ghost use Rattle.c2po_parse.specs.Splitting.{parsed_tree};
ghost use Rattle.c2po_parse.specs.Climbing.{climb, climb_all, closed, after_variable, after_prefix, Whole, Operand, Rest, Elements};

use crate::front::{take_middle, take_operator, take_sign, take_start};
use crate::node::{
    add_member, apply_prefix, closing_of, join, operator_level, pick_of, prefix_level_of,
};
use crate::operator::{Bracket, Operator, Prefix, Quantifier, Start};
use crate::{Expr, TreeFault};
use c2po_ast::node::{enclose, leaf_of, quantify};
use c2po_lexer::{Sign, Token};
use mltl_base::Name;
use mltl_base::limits::MAX_ITEM_TOKENS;
use std::alloc::Global;

/// Returns the room for nested steps that is left after one step.
fn deeper(room: u32) -> Result<u32, TreeFault>
    ensures { MatchResult result (λ left. room ≡ suc left) (λ e. (room ≡ 0) × (e ≡ NoTree)) }
{
    room.checked_sub(1).ok_or(TreeFault::NoTree)
}

/// Returns the level at which the right operand of an operator is read.
fn right_level_of(level: u8) -> u8
    requires { level + 1 < 256 }
    ensures { result ≡ right_level level }
{
    match level {
        2 | 6 | 10 => level,
        _ => level + 1,
    }
}

/// Reads an expression with operators of this level and above, and returns it with the tokens after
/// it.
#[cycle(climbing)]
#[tactic(auto, unfolding(crate::specs::Climbing::climb))]
fn whole(
    alloc: Global,
    room: u32,
    level: u8,
    tokens: &[Token],
) -> Result<(Expr, &[Token]), TreeFault>
    ensures { GivesTree (λ x. (shape x.0, x.1.now)) result (climb room (Whole level) tokens.now) }
{
    let room = deeper(room)?;
    let (left, rest) = operand(alloc, room, level, tokens)?;
    follow(alloc, room, level, left, rest)
}

/// Reads the first operand of an expression, and returns it with the tokens after it.
#[cycle(climbing)]
#[tactic(auto, unfolding(crate::specs::Climbing::climb))]
fn operand(
    alloc: Global,
    room: u32,
    level: u8,
    tokens: &[Token],
) -> Result<(Expr, &[Token]), TreeFault>
    ensures { GivesTree (λ x. (shape x.0, x.1.now)) result (climb room (Operand level) tokens.now) }
{
    let room = deeper(room)?;
    let (start, rest) = take_start(tokens).ok_or(TreeFault::NoTree)?;
    match start {
        Start::Leaf(line, atom) => Ok((leaf_of(line, atom), rest)),
        Start::Before(prefix) => prefixed_operand(alloc, room, level, prefix, rest),
        Start::Round => in_brackets(alloc, room, rest),
        Start::Open(bracket) => elements(alloc, room, bracket, Vec::new(alloc), rest),
        Start::Bind(line, quantifier, variable) => quantified_operand(
            alloc, room, line, quantifier, variable, rest,
        ),
    }
}

/// Reads the operand after a prefix, which can't be an operand of an operator that binds tighter.
#[cycle(climbing)]
fn prefixed_operand(
    alloc: Global,
    room: u32,
    level: u8,
    prefix: Prefix,
    tokens: &[Token],
) -> Result<(Expr, &[Token]), TreeFault>
    ensures { GivesTree (λ x. (shape x.0, x.1.now)) result
        (after_prefix (climb room) level prefix tokens.now) }
{
    let own = prefix_level_of(prefix);
    if own < level {
        return Err(TreeFault::NoTree);
    }
    let (inner, rest) = whole(alloc, room, own, tokens)?;
    let expr = apply_prefix(alloc, prefix, inner)?;
    Ok((expr, rest))
}

/// Reads an expression and its `)`.
#[cycle(climbing)]
fn in_brackets(alloc: Global, room: u32, tokens: &[Token]) -> Result<(Expr, &[Token]), TreeFault>
    ensures { GivesTree (λ x. (shape x.0, x.1.now)) result (closed (climb room) tokens.now) }
{
    let (expr, rest) = whole(alloc, room, 1, tokens)?;
    let rest = take_sign(Sign::RightRound, rest).ok_or(TreeFault::NoTree)?;
    Ok((expr, rest))
}

/// Reads the set of a quantifier, its number if it counts, and its body.
#[cycle(climbing)]
fn quantified_operand(
    alloc: Global,
    room: u32,
    line: u32,
    quantifier: Quantifier,
    variable: Name,
    tokens: &[Token],
) -> Result<(Expr, &[Token]), TreeFault>
    ensures { GivesTree (λ x. (shape x.0, x.1.now)) result
        (after_variable (climb room) line quantifier variable tokens.now) }
{
    let (set, rest) = whole(alloc, room, 1, tokens)?;
    let (number, rest) = take_middle(quantifier, rest).ok_or(TreeFault::NoTree)?;
    let (body, rest) = in_brackets(alloc, room, rest)?;
    let set = Box::new(alloc, set)?;
    let body = Box::new(alloc, body)?;
    Ok((
        quantify(line, quantifier, variable, set, number, body),
        rest,
    ))
}

/// Reads the operators of this level and above after an operand, with their right operands.
#[cycle(climbing)]
#[tactic(auto, unfolding(crate::specs::Climbing::climb))]
fn follow(
    alloc: Global,
    room: u32,
    level: u8,
    left: Expr,
    tokens: &[Token],
) -> Result<(Expr, &[Token]), TreeFault>
    ensures { GivesTree (λ x. (shape x.0, x.1.now)) result
        (climb room (Rest level (shape left)) tokens.now) }
{
    let room = deeper(room)?;
    let Some((operator, rest)) = take_operator(tokens) else {
        return Ok((left, tokens));
    };
    let own = operator_level(&operator);
    if own < level {
        return Ok((left, tokens));
    }
    match operator {
        Operator::Binary(line, infix) => {
            let (right, rest) = whole(alloc, room, right_level_of(own), rest)?;
            let joined = join(alloc, line, infix, left, right)?;
            follow(alloc, room, level, joined, rest)
        }
        Operator::Field(line, name) => {
            let picked = pick_of(alloc, line, left, name)?;
            follow(alloc, room, level, picked, rest)
        }
    }
}

/// Reads elements with commas between them up to the closing sign, after the elements that were
/// read.
#[cycle(climbing)]
#[tactic(auto, unfolding(crate::specs::Climbing::climb))]
fn elements(
    alloc: Global,
    room: u32,
    bracket: Bracket,
    mut members: Vec<Expr>,
    tokens: &[Token],
) -> Result<(Expr, &[Token]), TreeFault>
    ensures { GivesTree (λ x. (shape x.0, x.1.now)) result
        (climb room (Elements bracket (map shape members.items)) tokens.now) }
{
    let room = deeper(room)?;
    let (element, rest) = whole(alloc, room, 1, tokens)?;
    add_member(&mut members, element)?;
    if let Some(more) = take_sign(Sign::Comma, rest) {
        return elements(alloc, room, bracket, members, more);
    }
    let rest = take_sign(closing_of(&bracket), rest).ok_or(TreeFault::NoTree)?;
    Ok((enclose(bracket, members), rest))
}

/// The number of nested steps that an item may take: 4 for each of at most 1,024 tokens, and 1 for
/// the end.
const ROOM: u32 = 4_097;

/// Returns the expression that all tokens form, read by climbing.
fn climbed(alloc: Global, tokens: &[Token]) -> Result<Expr, TreeFault>
    ensures { GivesTree shape result (climb_all ROOM tokens.now) }
{
    let (expr, rest) = whole(alloc, ROOM, 1, tokens)?;
    match rest {
        [] => Ok(expr),
        _ => Err(TreeFault::NoTree),
    }
}

/// Returns the tree of an expression, which is defined by splitting the tokens at the loosest
/// operator, level by level.
///
/// The tokens are read once, from the left. There may be at most 1,024 of them, so the nesting is
/// bounded. `NoTree` is returned exactly if the grammar has no tree for the tokens.
pub fn read_expression(alloc: Global, tokens: &[Token]) -> Result<Expr, TreeFault>
    requires { length tokens.now ≤ MAX_ITEM_TOKENS }
    ensures tree { GivesTree shape result (parsed_tree tokens.now) }
{
    climbed(alloc, tokens)
}
