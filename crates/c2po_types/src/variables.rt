//! Variables of quantifiers, whose values are members of sets.

ghost use Rattle.c2po_types.specs.declared.unfolding.Unfolding.{Unfolding};
ghost use Rattle.c2po_types.specs.Environment.{Env, bind};
ghost use Rattle.c2po_types.specs.Heads.{Heads};
ghost use Rattle.c2po_types.specs.Holding.{Fits};
ghost use Rattle.c2po_types.specs.Values.{Value};

use crate::values::Stored;
use c2po_ast::Expr;
use mltl_base::Name;

/// The variables around an expression, the innermost first.
#[derive(Clone, Copy)]
pub enum Scope<'a> {
    Top,
    /// The variable's value is an expression in a scope of its own.
    Open {
        name: &'a Name,
        expr: &'a Expr,
        within: &'a Scope<'a>,
        outer: &'a Scope<'a>,
    },
    /// The variable's value is a stored value.
    Held {
        name: &'a Name,
        stored: Stored,
        outer: &'a Scope<'a>,
    },
}

/// The place of an expression: the variables around it, and the number of levels that may nest in
/// it.
#[derive(Clone, Copy)]
pub struct Site<'a> {
    pub depth: u32,
    pub scope: &'a Scope<'a>,
}

/// The meaning of a name.
#[derive(Clone, Copy)]
pub enum Named<'a> {
    Nothing,
    /// A struct, by its number.
    Struct(u32),
    Open(&'a Scope<'a>, &'a Expr),
    Held(Stored),
}

/// The head of an expression's value, after names and picked fields are followed. Its parts aren't
/// visited.
#[derive(Clone, Copy)]
pub enum Head<'a> {
    /// A name without a value.
    Nothing(&'a Scope<'a>, &'a Expr),
    /// An expression that is a struct's value, with the struct's name and the parts.
    Struct(&'a Scope<'a>, &'a Expr, &'a Name, &'a [Expr]),
    /// An expression that is a set, with the members.
    Set(&'a Scope<'a>, &'a Expr, &'a [Expr]),
    /// A number, a Boolean, an operator or a quantifier.
    Leaf(&'a Scope<'a>, &'a Expr),
    Held(Stored),
}

impl<'a> Scope<'a> {
    /// Returns the scope in which a variable has the value of a head. The head is found once,
    /// however often the variable is used.
    pub(crate) fn bound(name: &'a Name, head: Head<'a>, outer: &'a Scope<'a>) -> Scope<'a>
        ensures { (u : Unfolding) (env : Env) (v : Value) → Fits u outer.now env
            → Heads u head.entry v → Fits u result (bind name.now v env) }
    {
        match head {
            Head::Nothing(within, expr)
            | Head::Struct(within, expr, ..)
            | Head::Set(within, expr, _)
            | Head::Leaf(within, expr) => Scope::Open {
                name,
                expr,
                within,
                outer,
            },
            Head::Held(stored) => Scope::Held {
                name,
                stored,
                outer,
            },
        }
    }
}
