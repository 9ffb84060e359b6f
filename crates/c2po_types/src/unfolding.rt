//! Names with the summaries of their values.

ghost use Rattle.std.specs.Prelude.{◌≡◌, ◌+◌, ◌<◌, ◌≤◌, ℕ, List as Seq, IfOk, IfErr, IfSome, OnOk, Some, slice_get};
ghost use Rattle.mltl_base.specs.declared.limits.TheConstants.{MAX_WEIGHT};
ghost use Rattle.c2po_ast.specs.Shape.{shape};
ghost use Rattle.c2po_types.specs.Facts.{told_fault};
ghost use Rattle.c2po_types.specs.declared.unfold_fault.UnfoldFault.TheVariants.{Heavy};
ghost use Rattle.c2po_types.specs.declared.values.Whole.TheVariants.{Struct, Set};
ghost use Rattle.c2po_types.specs.Environment.{Env, Known, declare, fields, no_names, signal_value, value, value_of};
ghost use Rattle.c2po_types.specs.Faults.{value_fault};
ghost use Rattle.c2po_types.specs.Holding.{HoldAll, Holds, IsLater, Means, StandsFor, Weighs};
ghost use Rattle.c2po_types.specs.Parts.{stored_fault};
ghost use Rattle.c2po_types.specs.Summaries.{IsSummary};
ghost use Rattle.c2po_types.specs.Values.{Leaf, Values, leaf, set, structure};
ghost use Rattle.c2po_types.specs.Weights.{parts_weight, weight};

use crate::UnfoldFault;
use crate::fact::{Fact, Tenses, fault_of, first_fault, tenses_of};
use crate::fields::Fields;
use crate::meanings::Meanings;
use crate::room::Room;
use crate::summary::{Summary, signal_fact};
use crate::values::{Entry, Location, Parts, Stored, Whole};
use crate::variables::{Scope, Site};
use c2po_ast::Expr;
use mltl_base::{List, Name, NoRange};
use std::alloc::{AllocError, Global};

/// The number of levels that expressions may nest: more than any stack has.
const DEPTH: u32 = u32::MAX;

/// The number of recently stored values that a new value is compared with. Members of a fleet have
/// fewer parts.
const RECENT: usize = 16;

/// The meanings of the names of a specification, with the summaries of their values.
#[derive(Drop)]
pub struct Unfolding {
    pub(crate) names: Meanings<Entry>,
    pub(crate) structs: List<Fields>,
    pub(crate) parts: List<Parts>,
    /// The facts of integers and formulas among the values.
    pub(crate) facts: List<Fact>,
}

/// The weight of a formula, the first fault of its integers, and its tenses.
#[derive(Clone, Copy)]
pub struct Weighed {
    pub weight: u32,
    pub fault: Option<NoRange>,
    pub tenses: Tenses,
}

impl Unfolding {
    /// Makes an unfolding without names. Doesn't allocate.
    pub fn new(alloc: Global) -> Unfolding
        ensures { StandsFor result no_names }
    {
        Unfolding {
            names: Meanings::new(alloc),
            structs: List::new(alloc),
            parts: List::new(alloc),
            facts: List::new(alloc),
        }
    }

    /// Declares a struct with its fields in order. A known name keeps its meaning.
    pub fn add_struct(
        &mut self,
        alloc: Global,
        name: &Name,
        names: List<Name>,
    ) -> Result<(), AllocError>
        ensures { (env : Env) → StandsFor self.old env
            → OnOk result (StandsFor self.new (declare name.now (fields names) env)) }
    {
        let place = next_place(self.structs.len())?;
        let fields = Fields::of(alloc, names)?;
        self.structs.push(fields)?;
        self.declare(alloc, name, Entry::Struct(place))?;
        Ok(())
    }

    /// Declares a Boolean or an integer signal, with any number. A known name keeps its meaning.
    pub fn add_signal(&mut self, alloc: Global, name: &Name, truth: bool) -> Result<(), AllocError>
        ensures { (env : Env) (number : ℕ) → StandsFor self.old env
            → OnOk result
            (StandsFor self.new (declare name.now (value (signal_value truth number)) env)) }
    {
        let stored = self.add_leaf(Summary {
            weight: 1,
            fact: signal_fact(truth),
        })?;
        self.declare(alloc, name, Entry::Value(stored))?;
        Ok(())
    }

    /// Declares a name for the value of an expression, and returns the first fault of the value's
    /// integers, or `Heavy` exactly if the value's weight is above the room. A known name keeps its
    /// meaning.
    pub fn define(
        &mut self,
        alloc: Global,
        name: &Name,
        e: &Expr,
        room: u32,
    ) -> Result<Option<NoRange>, UnfoldFault>
        requires { room ≤ MAX_WEIGHT }
        ensures stands { (env : Env) → StandsFor self.old env
            → OnOk result
            (StandsFor self.new (declare name.now (value (value_of (shape e.now) env)) env)) }
        ensures fault { (env : Env) → StandsFor self.old env
            → IfOk result (λ fault. told_fault fault ≡ value_fault (value_of (shape e.now) env)) }
        ensures light { (env : Env) → StandsFor self.old env
            → OnOk result (weight (value_of (shape e.now) env) ≤ room) }
        ensures heavy { (env : Env) → StandsFor self.old env
            → IfErr result (λ why. why ≡ Heavy → room < weight (value_of (shape e.now) env)) }
    {
        let at = Site {
            depth: DEPTH,
            scope: &Scope::Top,
        };
        let stored = self.store(alloc, at, e, Room::of(room))?;
        self.declare(alloc, name, Entry::Value(stored))?;
        Ok(stored.fault)
    }

    /// Returns the weight, the first fault and the tenses of an expression's formula, or `Heavy`
    /// exactly if its weight is above the room.
    pub fn weigh(&mut self, alloc: Global, e: &Expr, room: u32) -> Result<Weighed, UnfoldFault>
        requires { room ≤ MAX_WEIGHT }
        ensures stands { (env : Env) → StandsFor self.old env
            → OnOk result (StandsFor self.new env) }
        ensures weighs { (env : Env) → StandsFor self.old env
            → IfOk result (λ r. Weighs r (value_of (shape e.now) env)) }
        ensures light { IfOk result (λ r. r.weight ≤ room) }
        ensures heavy { (env : Env) → StandsFor self.old env
            → IfErr result (λ why. why ≡ Heavy → room < weight (value_of (shape e.now) env)) }
    {
        let at = Site {
            depth: DEPTH,
            scope: &Scope::Top,
        };
        let Summary { weight, fact } = self.summary(at, e, Room::of(room))?;
        Ok(Weighed {
            weight,
            fault: fault_of(&fact),
            tenses: tenses_of(&fact),
        })
    }

    /// Declares a name, unless it is known.
    fn declare(&mut self, alloc: Global, name: &Name, entry: Entry) -> Result<(), AllocError>
        ensures stands { (env : Env) (k : Known) → StandsFor self.old env
            → Means self.old (Some entry) k
            → OnOk result (StandsFor self.new (declare name.now k env)) }
        ensures kept { OnOk result (self.new ≡ record self.old { names = self.new.names }) }
    {
        if self.names.find(name).is_none() {
            self.names.add(alloc, name, entry)?;
        }
        Ok(())
    }

    /// Stores the summary of an integer or a formula.
    pub(crate) fn add_leaf(&mut self, summary: Summary) -> Result<Stored, AllocError>
        ensures later { OnOk result (IsLater self.old self.new) }
        ensures weight { IfOk result (λ s. s.weight ≡ summary.weight) }
        ensures holds { (l : Leaf) → IsSummary summary (leaf l)
            → IfOk result (λ s. Holds self.new s (leaf l)) }
    {
        let Summary { weight, fact } = summary;
        let place = self.fact_place(fact)?;
        let fault = fact.fault();
        Ok(Stored {
            location: Location::Leaf(place),
            weight,
            fault,
        })
    }

    /// Stores a fact, and returns its place. A fact that was stored recently keeps its place, so
    /// that equal values are stored as the same value.
    fn fact_place(&mut self, fact: Fact) -> Result<u32, AllocError>
        ensures later { OnOk result (IsLater self.old self.new) }
        ensures there { IfOk result (λ place. slice_get self.new.facts place ≡ Some fact) }
    {
        if let Some(i) = self.recent_fact(&fact) {
            return next_place(i);
        }
        let place = next_place(self.facts.len())?;
        self.facts.push(fact)?;
        Ok(place)
    }

    /// Returns the index of a fact, if it is among the facts stored last.
    fn recent_fact(&self, fact: &Fact) -> Option<usize>
        ensures { IfSome result (λ i. slice_get self.now.facts i ≡ Some fact.now) }
    {
        let facts = self.facts.as_slice();
        for i in facts.len().saturating_sub(RECENT)..facts.len() {
            if facts[i].is(fact) {
                return Some(i);
            }
        }
        None
    }

    /// Stores the parts of a struct's value or of a set.
    pub(crate) fn add_parts(
        &mut self,
        whole: Whole,
        members: List<Stored>,
        weight: u32,
    ) -> Result<Stored, AllocError>
        ensures later { OnOk result (IsLater self.old self.new) }
        ensures weight { IfOk result (λ s. s.weight ≡ weight) }
        ensures structure { (x : Seq ℕ) (vs : Values) → whole ≡ Struct x
            → HoldAll self.old members vs → weight ≡ 1 + parts_weight vs
            → IfOk result (λ s. Holds self.new s (structure x vs)) }
        ensures set { (vs : Values) → whole ≡ Set → HoldAll self.old members vs
            → weight ≡ 1 + parts_weight vs → IfOk result (λ s. Holds self.new s (set vs)) }
    {
        let fault = first_of(members.as_slice());
        let place = self.parts_place(whole, members)?;
        Ok(Stored {
            location: Location::Parts(place),
            weight,
            fault,
        })
    }

    /// Stores parts, and returns their place. Parts that were stored recently keep their place.
    fn parts_place(&mut self, whole: Whole, members: List<Stored>) -> Result<u32, AllocError>
        ensures later { OnOk result (IsLater self.old self.new) }
        ensures there { IfOk result (λ place. slice_get self.new.parts place
            ≡ Some (record { whole = whole; members = members })) }
    {
        if let Some(i) = self.recent_parts(&whole, members.as_slice()) {
            return next_place(i);
        }
        let place = next_place(self.parts.len())?;
        self.parts.push(Parts { whole, members })?;
        Ok(place)
    }

    /// Returns the index of parts, if they are among the parts stored last.
    fn recent_parts(&self, whole: &Whole, members: &[Stored]) -> Option<usize>
        ensures { IfSome result (λ i. slice_get self.now.parts i
            ≡ Some (record { whole = whole.now; members = members.now })) }
    {
        let parts = self.parts.as_slice();
        for i in parts.len().saturating_sub(RECENT)..parts.len() {
            if parts[i].are(whole, members) {
                return Some(i);
            }
        }
        None
    }
}

/// Returns the first fault among stored values.
fn first_of(members: &[Stored]) -> Option<NoRange>
    ensures { told_fault result ≡ stored_fault members.now }
{
    match members {
        [] => None,
        [member, rest @ ..] => first_fault(member.fault, first_of(rest)),
    }
}

/// Returns an index as a number of 32 bits. An index of 2^32 or more fails as if out of memory.
pub(crate) fn next_place(len: usize) -> Result<u32, AllocError>
    ensures { IfOk result (λ place. place ≡ len) }
{
    u32::try_from(len).map_err(|_| AllocError)
}
