//! Trees from their parts, and the levels of operators.

ghost use Rattle.std.specs.Prelude.{◌≡◌, ◌++◌, [], ◌∷◌, Some, map};
ghost use Rattle.c2po_ast.specs.Shape.{shape, pick};
ghost use Rattle.c2po_ast.specs.Parts.{joined, prefixed};
ghost use Rattle.c2po_parse.specs.Fronts.{prefix_level, infix_level, closing, level_of};
ghost use Rattle.c2po_parse.specs.Gives.{GivesTree};

use crate::operator::{Bracket, Infix, Operator, Prefix};
use crate::{Expr, Node, TreeFault};
use c2po_ast::node::{joined_by, prefixed_by};
use c2po_lexer::Sign;
use mltl_base::{ArithOp, LogicOp, Name};
use std::alloc::Global;

/// Joins two operands by an operator.
pub fn join(
    alloc: Global,
    line: u32,
    binary: Infix,
    left: Expr,
    right: Expr,
) -> Result<Expr, TreeFault>
    ensures { GivesTree shape result (Some (joined line binary (shape left) (shape right))) }
{
    let left = Box::new(alloc, left)?;
    let right = Box::new(alloc, right)?;
    Ok(joined_by(line, binary, left, right))
}

/// Picks a field of an operand.
pub fn pick_of(alloc: Global, line: u32, left: Expr, field: Name) -> Result<Expr, TreeFault>
    ensures { GivesTree shape result (Some (pick line (shape left) field)) }
{
    let node = Node::Pick(Box::new(alloc, left)?, field);
    Ok(Expr { line, node })
}

/// Applies a prefix to an operand.
pub fn apply_prefix(alloc: Global, prefix: Prefix, operand: Expr) -> Result<Expr, TreeFault>
    ensures { GivesTree shape result (Some (prefixed prefix (shape operand))) }
{
    let operand = Box::new(alloc, operand)?;
    Ok(prefixed_by(prefix, operand))
}

/// Appends an element.
pub fn add_member(elements: &mut Vec<Expr>, element: Expr) -> Result<(), TreeFault>
    ensures { GivesTree (λ _. map shape elements.new.items) result
        (Some (map shape elements.old.items ++ shape element ∷ [])) }
{
    // Nested brackets often have one element each, so the first element gets no spare room.
    if elements.is_empty() {
        elements.reserve_exact(1)?;
    }
    elements.push(element)?;
    Ok(())
}

/// Returns the sign that closes brackets.
pub fn closing_of(bracket: &Bracket) -> Sign
    ensures { result ≡ closing bracket.now }
{
    match bracket {
        Bracket::Curly(_) => Sign::RightCurly,
        Bracket::Call(_, _) => Sign::RightRound,
    }
}

/// Returns the level of a binary operator. Level 1 binds loosest.
fn infix_level_of(binary: Infix) -> u8
    ensures { result ≡ infix_level binary }
{
    match binary {
        Infix::Logic(LogicOp::Iff) => 1,
        Infix::Logic(LogicOp::Implies) => 2,
        Infix::Logic(LogicOp::Or) => 3,
        Infix::Logic(LogicOp::And) => 4,
        Infix::Between(..) => 5,
        Infix::Compare(_) => 7,
        Infix::Arith(ArithOp::Add | ArithOp::Sub) => 8,
        Infix::Arith(_) => 9,
    }
}

/// Returns the level of an operator after an operand. A picked field binds tightest.
pub fn operator_level(operator: &Operator) -> u8
    ensures { result ≡ level_of operator.now }
{
    match operator {
        Operator::Binary(_, binary) => infix_level_of(*binary),
        Operator::Field(..) => 11,
    }
}

/// Returns the level of a prefix, which is also the level of its operand.
pub fn prefix_level_of(prefix: Prefix) -> u8
    ensures { result ≡ prefix_level prefix }
{
    match prefix {
        Prefix::Not(_) | Prefix::Window(..) => 6,
        Prefix::Minus(_) => 10,
    }
}
