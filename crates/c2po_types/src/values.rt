//! Stored values.

ghost use Rattle.std.specs.Prelude.{◌≡◌, true};

use mltl_base::{List, Name, NoRange};

/// The place of a stored value: the fact of an integer or a formula, or the parts of a struct's
/// value or of a set.
#[derive(Clone, Copy)]
pub enum Location {
    Leaf(u32),
    Parts(u32),
}

/// A stored value: its place, its weight, and the first fault of its integers.
#[derive(Clone, Copy)]
pub struct Stored {
    pub location: Location,
    pub weight: u32,
    pub fault: Option<NoRange>,
}

impl Location {
    /// Returns `true` if both are the same place.
    #[inline(always)]
    fn is(self, other: Location) -> bool
        ensures { result ≡ true → self ≡ other }
    {
        match (self, other) {
            (Location::Leaf(i), Location::Leaf(j)) => i == j,
            (Location::Parts(i), Location::Parts(j)) => i == j,
            _ => false,
        }
    }
}

impl Stored {
    /// Returns `true` if both are the same stored value, without a fault.
    #[inline(always)]
    pub(crate) fn is(self, other: Stored) -> bool
        ensures { result ≡ true → self ≡ other }
    {
        self.location.is(other.location)
            && self.weight == other.weight
            && self.fault.is_none()
            && other.fault.is_none()
    }
}

/// The sort of a value that has parts: a struct's value, or a set.
#[derive(Drop)]
pub enum Whole {
    Struct(Name),
    Set,
}

/// The parts of a struct's value, or the members of a set.
#[derive(Drop)]
pub struct Parts {
    pub whole: Whole,
    pub members: List<Stored>,
}

impl Whole {
    /// Returns `true` if both are values of one struct, or both are sets.
    #[inline(always)]
    fn is(&self, other: &Whole) -> bool
        ensures { result ≡ true → self.now ≡ other.now }
    {
        match (self, other) {
            (Whole::Struct(own), Whole::Struct(name)) => own.bytes() == name.bytes(),
            (Whole::Set, Whole::Set) => true,
            _ => false,
        }
    }
}

impl Parts {
    /// Returns `true` if these are the same parts, without a fault.
    pub(crate) fn are(&self, whole: &Whole, members: &[Stored]) -> bool
        ensures whole { result ≡ true → self.now.whole ≡ whole.now }
        ensures members { result ≡ true → self.now.members ≡ members.now }
    {
        self.whole.is(whole) && are_same(self.members.as_slice(), members)
    }
}

/// Returns `true` if both lists have the same stored values in order, without a fault.
fn are_same(own: &[Stored], others: &[Stored]) -> bool
    ensures { result ≡ true → own.now ≡ others.now }
{
    match (own, others) {
        ([], []) => true,
        ([first, rest @ ..], [other, others @ ..]) => { first.is(*other) && are_same(rest, others) }
        _ => false,
    }
}

/// The meaning of a declared name: a struct by its number, or a value.
#[derive(Clone, Copy)]
pub enum Entry {
    Struct(u32),
    Value(Stored),
}
