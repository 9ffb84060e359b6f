//! The values that names and picked fields lead to. Parts that aren't picked aren't visited.

ghost use Rattle.std.specs.Prelude.{◌≡◌, ◌+◌, ℕ, true, false, List as Seq, Some, None, length, position, slice_get, IfOk, IfSome};
ghost use Rattle.std.specs.Str.{bytes_eq};
ghost use Rattle.c2po_ast.specs.Shape.{shape, shapes};
ghost use Rattle.c2po_types.specs.Environment.{Env, bind, fields_in, value_of, values_of};
ghost use Rattle.c2po_types.specs.Values.{Value, built, members, picked};
ghost use Rattle.set_expand.specs.Heads.{HeadBelow, IsHead, IsReached, NamedBelow, env_in, head_value, is_build, leads_on, named_meaning, named_value};
ghost use Rattle.c2po_ast.specs.declared.nodes.Plain.{Plain};
ghost use Rattle.c2po_types.specs.Heads.{is_operator};
ghost use Rattle.set_expand.specs.Names.{SignalsBelow};
ghost use Rattle.set_expand.specs.Nodes.{HaveNodes, HeadKept, NamedKept};

use crate::names::Names;
use crate::scope::{Head, Named, Scope};
use c2po_ast::{Expr, Node};
use mltl_base::Name;
use std::alloc::AllocError;

/// Returns the number of levels that are left within one more level. The stack ends long before the
/// levels do.
pub(crate) fn deeper(levels: u32) -> Result<u32, AllocError>
    ensures { IfOk result (λ left. left + 1 ≡ levels) }
{
    levels.checked_sub(1).ok_or(AllocError)
}

/// Returns `true` if an expression is a number, a Boolean, an operator or a quantifier.
pub(crate) fn is_operator(e: &Expr) -> bool
    ensures { result ≡ is_operator (shape e.now) }
{
    match &e.node {
        Node::Ref(_) | Node::Build(..) | Node::Group(_) | Node::Pick(..) => false,
        _ => true,
    }
}

/// Returns `true` if an expression is a name or a picked field, which lead to another expression.
fn leads_on(e: &Expr) -> bool
    ensures { result ≡ leads_on (shape e.now) }
{
    match &e.node {
        Node::Ref(_) | Node::Pick(..) => true,
        _ => false,
    }
}

/// Returns the name and the parts of an expression that builds a struct's value.
fn built_parts<'b>(e: &'b Expr) -> Option<(&'b Name, &'b [Expr])>
    ensures built { IfSome result (λ r. (env : Env) → value_of (shape e.now) env
        ≡ built r.0.now (values_of (shapes r.1.now) env)) }
    ensures none { result ≡ None → is_build (shape e.now) ≡ false }
{
    match &e.node {
        Node::Build(name, parts) => Some((name, parts.as_slice())),
        _ => None,
    }
}

/// Returns `true` if this is neither a name nor a picked field.
fn is_reached(found: &Named<'_>) -> bool
    ensures { result ≡ true → IsReached found.now }
{
    match found {
        Named::Open(_, expr, _) => !leads_on(expr),
        Named::Nothing | Named::Struct(_) | Named::Signal(..) => true,
    }
}

impl<'a> Names<'a> {
    /// Returns the meaning of a name: the innermost variable with this name, else the declared
    /// meaning.
    fn look<'b>(&self, scope: &Scope<'b>, name: &Name) -> Named<'b>
    where
        'a: 'b,
        ensures means { named_meaning self.now result ≡ env_in self.now scope.now name.now }
        ensures below { (n : ℕ) → SignalsBelow n self.now → NamedBelow n result }
        ensures kept { (nodes : Seq Plain) → HaveNodes nodes self.now
            → NamedKept nodes self.now result }
    {
        match scope {
            Scope::First(count) => self.find(*count, name),
            Scope::Member {
                name: own,
                expr,
                within,
                outer,
            } => {
                if name.bytes() == own.bytes() {
                    Named::Open(**within, expr, None)
                } else {
                    self.look(outer, name)
                }
            }
        }
    }

    /// Returns the place of a field among the fields of a struct.
    fn field_place(&self, scope: &Scope<'_>, whole: &Name, field: &Name) -> Option<usize>
        ensures { result ≡ position (bytes_eq field.now)
            (fields_in (env_in self.now scope.now whole.now)) }
    {
        match scope {
            Scope::First(count) => self.place_of(*count, whole, field),
            Scope::Member { name, outer, .. } => {
                if whole.bytes() == name.bytes() {
                    None
                } else {
                    self.field_place(outer, whole, field)
                }
            }
        }
    }

    /// Follows an expression through names and picked fields to the meaning that it leads to.
    #[cycle(heading)]
    pub(crate) fn follow<'b>(
        &self,
        levels: u32,
        scope: &Scope<'b>,
        e: &'b Expr,
    ) -> Result<Named<'b>, AllocError>
    where
        'a: 'b,
        ensures value { IfOk result (λ found. named_value self.now found
            ≡ value_of (shape e.now) (env_in self.now scope.now)) }
        ensures reached { IfOk result IsReached }
        ensures below { (n : ℕ) → SignalsBelow n self.now → IfOk result (NamedBelow n) }
        ensures kept { (nodes : Seq Plain) → HaveNodes nodes self.now
            → IfOk result (NamedKept nodes self.now) }
    {
        let levels = deeper(levels)?;
        let mut found = Named::Open(*scope, e, None);
        for _ in 0..levels {
            if is_reached(&found) {
                return Ok(found);
            }
            found = self.step(levels, found)?;
        }
        Err(AllocError)
    }

    /// Follows one name or picked field. Another expression leads to itself.
    #[cycle(heading)]
    fn step<'b>(&self, levels: u32, found: Named<'b>) -> Result<Named<'b>, AllocError>
    where
        'a: 'b,
        ensures value { IfOk result (λ next. named_value self.now next
            ≡ named_value self.now found.entry) }
        ensures below { (n : ℕ) → SignalsBelow n self.now → NamedBelow n found.entry
            → IfOk result (NamedBelow n) }
        ensures kept { (nodes : Seq Plain) → HaveNodes nodes self.now
            → NamedKept nodes self.now found.entry → IfOk result (NamedKept nodes self.now) }
    {
        let Named::Open(scope, expr, _) = found else {
            return Ok(found);
        };
        match &expr.node {
            Node::Ref(name) => Ok(self.look(&scope, name)),
            Node::Pick(whole, field) => {
                let whole = self.follow(levels, &scope, whole)?;
                Ok(self.part(&scope, whole, field))
            }
            _ => Ok(found),
        }
    }

    /// Returns the part that a field names, or the whole itself if it has no such part.
    fn part<'b>(&self, scope: &Scope<'b>, whole: Named<'b>, field: &Name) -> Named<'b>
    where
        'a: 'b,
        requires { IsReached whole }
        ensures value { named_value self.now result ≡ picked
            (λ y. fields_in (env_in self.now scope.now y)) field.now
            (named_value self.now whole.entry) }
        ensures below { (n : ℕ) → SignalsBelow n self.now → NamedBelow n whole.entry
            → NamedBelow n result }
        ensures kept { (nodes : Seq Plain) → HaveNodes nodes self.now
            → NamedKept nodes self.now whole.entry → NamedKept nodes self.now result }
    {
        let Named::Open(within, expr, _) = whole else {
            return whole;
        };
        let Some((name, parts)) = built_parts(expr) else {
            return whole;
        };
        let Some(place) = self.field_place(scope, name, field) else {
            return whole;
        };
        match parts.get(place) {
            Some(part) => Named::Open(within, part, None),
            None => whole,
        }
    }

    /// Returns the head of the value that an expression leads to.
    pub(crate) fn head<'b>(
        &self,
        levels: u32,
        scope: &Scope<'b>,
        e: &'b Expr,
    ) -> Result<Head<'b>, AllocError>
    where
        'a: 'b,
        ensures head { IfOk result (λ h. head_value self.now h
            ≡ value_of (shape e.now) (env_in self.now scope.now)) }
        ensures is { IfOk result IsHead }
        ensures below { (n : ℕ) → SignalsBelow n self.now → IfOk result (HeadBelow n) }
        ensures kept { (nodes : Seq Plain) → HaveNodes nodes self.now
            → IfOk result (HeadKept nodes self.now) }
    {
        let found = self.follow(levels, scope, e)?;
        Ok(self.head_of(found))
    }

    /// Returns the head of a meaning that leads no further.
    fn head_of<'b>(&self, found: Named<'b>) -> Head<'b>
    where
        'a: 'b,
        requires { IsReached found }
        ensures head { head_value self.now result ≡ named_value self.now found.entry }
        ensures is { IsHead result }
        ensures below { (n : ℕ) → NamedBelow n found.entry → HeadBelow n result }
        ensures kept { (nodes : Seq Plain) → NamedKept nodes self.now found.entry
            → HeadKept nodes self.now result }
    {
        match found {
            Named::Nothing | Named::Struct(_) => Head::Nothing,
            Named::Signal(truth, number) => Head::Signal(truth, number),
            Named::Open(scope, expr, made) => match &expr.node {
                Node::Build(name, parts) => Head::Struct(scope, name, parts.as_slice()),
                Node::Group(members) => Head::Set(scope, members.as_slice()),
                _ => match made {
                    Some(made) => Head::Kept(made, scope, expr),
                    None => Head::Leaf(scope, expr),
                },
            },
        }
    }

    /// Returns the number of members of a set, or 0 for any other value.
    pub(crate) fn member_count(&self, set: &Head<'_>) -> usize
        requires { IsHead set.now }
        ensures { result ≡ length (members (head_value self.now set.now)) }
    {
        match *set {
            Head::Set(_, members) => members.len(),
            Head::Nothing | Head::Signal(..) | Head::Struct(..) | Head::Leaf(..) | Head::Kept(..) =>
                0,
        }
    }

    /// Returns the scope in which a variable is member `i` of a set.
    pub(crate) fn member_scope<'b>(
        &self,
        scope: &'b Scope<'b>,
        name: &'b Name,
        set: &'b Head<'b>,
        i: usize,
    ) -> Scope<'b>
        requires { IsHead set.now }
        ensures { (v : Value) → slice_get (members (head_value self.now set.now)) i ≡ Some v
            → env_in self.now result ≡ bind name.now v (env_in self.now scope.now) }
    {
        match set {
            Head::Set(within, members) => match members.get(i) {
                Some(expr) => Scope::Member {
                    name,
                    expr,
                    within,
                    outer: scope,
                },
                None => *scope,
            },
            Head::Nothing | Head::Signal(..) | Head::Struct(..) | Head::Leaf(..) | Head::Kept(..) =>
                *scope,
        }
    }
}
