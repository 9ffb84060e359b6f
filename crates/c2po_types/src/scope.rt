//! The names that are visible in an expression.

ghost use Rattle.std.specs.Prelude.{◌≡◌};
ghost use Rattle.c2po_types.specs.Scopes.{visible, meaning_of};

use crate::{Declarations, Kind, Meaning};
use mltl_base::Name;

/// The names that are visible in an expression: the declarations of the items before it, and the
/// variables of the quantifiers around it, the innermost first.
#[derive(Clone, Copy)]
pub enum Scope<'a> {
    Items(&'a Declarations),
    /// The body of a quantifier, with its variable.
    Within(&'a Name, Kind, &'a Scope<'a>),
}

impl<'a> Scope<'a> {
    /// Returns the meaning of a name.
    pub fn meaning(&self, name: &Name) -> Option<Meaning>
        ensures { result ≡ meaning_of name.now (visible self.now) }
    {
        let mut rest = self;
        loop {
            match rest {
                Scope::Within(own, kind, around) => {
                    if own.bytes() == name.bytes() {
                        return Some(Meaning::Value(*kind));
                    }
                    rest = around;
                }
                Scope::Items(declared) => return declared.names.find(name),
            }
        }
    }

    /// Returns the declarations of the items before.
    pub fn declared(&self) -> &'a Declarations
        ensures { result.now ≡ (visible self.now).declared }
    {
        let mut rest = self;
        loop {
            match rest {
                Scope::Within(_, _, around) => rest = around,
                Scope::Items(declared) => return declared,
            }
        }
    }
}
