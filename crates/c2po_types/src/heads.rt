//! The heads of expressions. Names and picked fields are followed; parts that aren't picked aren't
//! visited.

ghost use Rattle.std.specs.Prelude.{◌≡◌, ℕ, Some, length, position, slice_get, IfOk, IfErr};
ghost use Rattle.std.specs.Str.{bytes_eq};
ghost use Rattle.c2po_ast.specs.Shape.{shape};
ghost use Rattle.c2po_types.specs.declared.unfold_fault.UnfoldFault.TheVariants.{Memory};
ghost use Rattle.c2po_types.specs.Environment.{Env, fields_in, value_of};
ghost use Rattle.c2po_types.specs.Heads.{Heads, HoldMembers, Names};
ghost use Rattle.c2po_types.specs.Holding.{Fits, Holds, StandsFor};
ghost use Rattle.c2po_types.specs.Values.{Value, members, picked};

use crate::unfold_fault::deeper;
use crate::values::{Entry, Location, Stored, Whole};
use crate::variables::{Head, Named, Scope};
use crate::{UnfoldFault, Unfolding};
use c2po_ast::{Expr, Node};
use mltl_base::Name;

impl Unfolding {
    /// Returns the meaning of a declared name.
    fn declared<'a>(&self, name: &Name) -> Named<'a>
        ensures { (env : Env) → StandsFor self.now env → Names self.now result (env name.now) }
    {
        match self.names.find(name) {
            None => Named::Nothing,
            Some(Entry::Struct(i)) => Named::Struct(i),
            Some(Entry::Value(stored)) => Named::Held(stored),
        }
    }

    /// Returns the meaning of a name: the innermost variable with this name, else the declared
    /// meaning.
    fn look<'a>(&self, scope: &'a Scope<'a>, name: &Name) -> Named<'a>
        ensures { (env : Env) → Fits self.now scope.now env → Names self.now result (env name.now) }
    {
        match scope {
            Scope::Top => self.declared(name),
            Scope::Open {
                name: own,
                expr,
                within,
                outer,
            } => {
                if name.bytes() == own.bytes() {
                    Named::Open(within, expr)
                } else {
                    self.look(outer, name)
                }
            }
            Scope::Held {
                name: own,
                stored,
                outer,
            } => {
                if name.bytes() == own.bytes() {
                    Named::Held(*stored)
                } else {
                    self.look(outer, name)
                }
            }
        }
    }

    /// Returns the place of a field in a struct.
    fn field_place(&self, scope: &Scope<'_>, whole: &Name, field: &Name) -> Option<usize>
        ensures { (env : Env) → Fits self.now scope.now env
            → result ≡ position (bytes_eq field.now) (fields_in (env whole.now)) }
    {
        let Named::Struct(i) = self.look(scope, whole) else {
            return None;
        };
        let fields = self.structs.as_slice().get(i as usize)?;
        fields.place(field)
    }

    /// Returns the part of a stored struct's value that a field names, or the value itself if it
    /// has no such part.
    fn held_part(&self, scope: &Scope<'_>, stored: Stored, field: &Name) -> Stored
        ensures { (env : Env) (v : Value) → Fits self.now scope.now env → Holds self.now stored v
            → Holds self.now result (picked (λ y. fields_in (env y)) field.now v) }
    {
        let Location::Parts(i) = stored.location else {
            return stored;
        };
        let Some(parts) = self.parts.as_slice().get(i as usize) else {
            return stored;
        };
        let Whole::Struct(whole) = &parts.whole else {
            return stored;
        };
        let Some(place) = self.field_place(scope, whole, field) else {
            return stored;
        };
        match parts.members.as_slice().get(place) {
            Some(part) => *part,
            None => stored,
        }
    }

    /// Follows the names and the picked fields of an expression to its head.
    #[cycle(heading)]
    pub(crate) fn head<'a>(
        &self,
        levels: u32,
        scope: &'a Scope<'a>,
        e: &'a Expr,
    ) -> Result<Head<'a>, UnfoldFault>
        ensures head { (env : Env) → Fits self.now scope.now env
            → IfOk result (λ h. Heads self.now h (value_of (shape e.now) env)) }
        ensures memory { IfErr result (λ why. why ≡ Memory) }
    {
        let levels = deeper(levels)?;
        match &e.node {
            Node::Ref(name) => match self.look(scope, name) {
                Named::Open(within, expr) => self.head(levels, within, expr),
                Named::Held(stored) => Ok(Head::Held(stored)),
                Named::Nothing | Named::Struct(_) => Ok(Head::Nothing(scope, e)),
            },
            Node::Pick(whole, field) => {
                let whole = self.head(levels, scope, whole)?;
                self.part(levels, scope, whole, field)
            }
            Node::Build(name, parts) => Ok(Head::Struct(scope, e, name, parts.as_slice())),
            Node::Group(members) => Ok(Head::Set(scope, e, members.as_slice())),
            _ => Ok(Head::Leaf(scope, e)),
        }
    }

    /// Follows the part that a field names to its head, or returns the value itself if it has no
    /// such part.
    #[cycle(heading)]
    fn part<'a>(
        &self,
        levels: u32,
        scope: &'a Scope<'a>,
        whole: Head<'a>,
        field: &Name,
    ) -> Result<Head<'a>, UnfoldFault>
        ensures head { (env : Env) (v : Value) → Fits self.now scope.now env
            → Heads self.now whole.entry v
            → IfOk result (λ h. Heads self.now h (picked (λ y. fields_in (env y)) field.now v)) }
        ensures memory { IfErr result (λ why. why ≡ Memory) }
    {
        let levels = deeper(levels)?;
        match whole {
            Head::Struct(within, _, name, parts) => {
                let Some(place) = self.field_place(scope, name, field) else {
                    return Ok(whole);
                };
                match parts.get(place) {
                    Some(part) => self.head(levels, within, part),
                    None => Ok(whole),
                }
            }
            Head::Held(stored) => Ok(Head::Held(self.held_part(scope, stored, field))),
            Head::Nothing(..) | Head::Set(..) | Head::Leaf(..) => Ok(whole),
        }
    }

    /// Returns the number of members of a set, or 0 for any other value.
    pub(crate) fn member_count(&self, set: &Head<'_>) -> usize
        ensures { (v : Value) → Heads self.now set.now v → result ≡ length (members v) }
    {
        match *set {
            Head::Set(_, _, members) => members.len(),
            Head::Held(stored) => self.held_members(stored).len(),
            Head::Nothing(..) | Head::Struct(..) | Head::Leaf(..) => 0,
        }
    }

    /// Returns the members of a stored set, or an empty list for any other value.
    fn held_members(&self, stored: Stored) -> &[Stored]
        ensures { (v : Value) → Holds self.now stored v → HoldMembers self.now result.now v }
    {
        let Location::Parts(i) = stored.location else {
            return &[];
        };
        let Some(parts) = self.parts.as_slice().get(i as usize) else {
            return &[];
        };
        match &parts.whole {
            Whole::Set => parts.members.as_slice(),
            Whole::Struct(_) => &[],
        }
    }

    /// Follows member `i` of a set to its head.
    pub(crate) fn member<'a>(
        &self,
        levels: u32,
        set: &Head<'a>,
        i: usize,
    ) -> Result<Head<'a>, UnfoldFault>
        ensures head { (s v : Value) → Heads self.now set.now s
            → slice_get (members s) i ≡ Some v
            → IfOk result (λ h. Heads self.now h v) }
        ensures memory { IfErr result (λ why. why ≡ Memory) }
    {
        match *set {
            Head::Set(within, _, members) => match members.get(i) {
                Some(expr) => self.head(levels, within, expr),
                None => Ok(*set),
            },
            Head::Held(stored) => match self.held_members(stored).get(i) {
                Some(member) => Ok(Head::Held(*member)),
                None => Ok(*set),
            },
            Head::Nothing(..) | Head::Struct(..) | Head::Leaf(..) => Ok(*set),
        }
    }
}
