//! Names with their meanings.

ghost use Rattle.std.specs.Prelude.{◌≡◌, ◌++◌, ◌∷◌, [], None, Some, IfSome, length, OnOk};
ghost use Rattle.mltl_base.specs.Tables.{entry_of, is_named};

use mltl_base::{List, Name, NameTable};
use std::alloc::{AllocError, Global};
use std::marker::Model;
use std::mem;

/// The number of places. The bytes of a name determine its place.
const PLACES: usize = 16_384;

/// A name, and the number of names before it.
#[derive(Drop)]
pub struct Numbered {
    pub name: Name,
    pub number: usize,
}

/// Names with their meanings, which contracts see as a table. Most names are found without a
/// search, at the place that their bytes determine: a chain of picked fields looks up two names for
/// each field.
#[derive(Drop)]
pub struct Meanings<V> {
    table: NameTable<V>,
    names: List<Numbered>,
    /// The index of the last name at each place.
    places: Vec<u32>,
}

impl<V> Model for Meanings<V> {
    ghost use Rattle.mltl_base.specs.Tables.{Table};
    ghost use Rattle.c2po_types.specs.Meanings.{ArePlaced};

    ghost Value = { Table V };

    ghost view = { λ meanings. meanings.table };

    ghost invariant = { λ meanings. ArePlaced meanings.names meanings.table };
}

/// Returns the place of a name, which its bytes determine.
fn place_of(name: &Name) -> usize {
    let mut sum: u32 = 0;
    for byte in name.bytes() {
        sum = sum.wrapping_mul(31).wrapping_add(u32::from(*byte));
    }
    sum as usize % PLACES
}

/// Writes the index of a name at its place. No meaning depends on it.
fn mark(places: &mut Vec<u32>, alloc: Global, name: &Name, index: u32) -> Result<(), AllocError> {
    if places.is_empty() {
        *places = vec![in alloc; 0; PLACES]?;
    }
    if let Some(last) = places.get_mut(place_of(name)) {
        *last = index;
    }
    Ok(())
}

impl<V> Meanings<V> {
    /// Makes a table without names. Doesn't allocate.
    #[tactic(auto, using(crate::proofs::Finding::none_placed))]
    pub fn new(alloc: Global) -> Self
        ensures { result ≡ [] }
    {
        Meanings {
            table: NameTable::new(alloc),
            names: List::new(alloc),
            places: Vec::new(alloc),
        }
    }

    /// Returns the number of names.
    pub fn len(&self) -> usize
        ensures { result ≡ length self.now }
    {
        self.table.len()
    }

    /// Returns `true` if the name has a meaning.
    pub fn contains(&self, name: &Name) -> bool
        ensures { result ≡ is_named name.now self.now }
    {
        self.table.contains(name)
    }
}

impl<V: Copy> Meanings<V> {
    /// Returns the meaning of a name.
    pub fn find(&self, name: &Name) -> Option<V>
        ensures { result ≡ entry_of name.now self.now }
    {
        match self.near(name) {
            Some(meaning) => Some(meaning),
            None => self.table.find(name),
        }
    }

    /// Returns the meaning of a name if it is the last name at its place.
    fn near(&self, name: &Name) -> Option<V>
        ensures { IfSome result (λ meaning. entry_of name.now self.now ≡ Some meaning) }
    {
        let index = *self.places.get(place_of(name))?;
        let own = self.names.as_slice().get(index as usize)?;
        if own.name.bytes() == name.bytes() {
            Some(self.table.value_at(own.number))
        } else {
            None
        }
    }
}

impl<V: Drop> Meanings<V> {
    /// Appends a new name with its meaning.
    #[tactic(auto, using(crate::proofs::Finding::none_placed))]
    pub fn add(&mut self, alloc: Global, name: &Name, meaning: V) -> Result<(), AllocError>
        requires { entry_of name.now self.old ≡ None }
        ensures added { OnOk result (self.new ≡ self.old ++ (name.now, meaning) ∷ []) }
    {
        let number = self.table.len();
        let index = u32::try_from(self.names.len()).map_err(|_| AllocError)?;
        mark(&mut self.places, alloc, name, index)?;
        let mut names = mem::replace(&mut self.names, List::new(alloc));
        self.table.add(alloc, name, meaning)?;
        names.push(Numbered {
            name: name.copy(),
            number,
        })?;
        self.names = names;
        Ok(())
    }
}
