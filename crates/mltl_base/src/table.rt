//! Tables that find a name without a search through the others.

ghost use Rattle.std.specs.Prelude.{◌≡◌, ◌<◌, ◌++◌, ◌∷◌, [], None, Some, length, option_map, slice_get, OnOk};
ghost use Rattle.mltl_base.specs.Tables.{entry_of, is_named};

use crate::Name;
use std::alloc::{AllocError, Global};
use std::collections::BTreeMap;
use std::marker::Model;

/// Names with their values, in the order in which they were added.
#[derive(Drop)]
pub struct NameTable<V> {
    /// The values of the names.
    values: Vec<V>,
    /// The number of the value of each name.
    numbers: BTreeMap<Vec<u8>, usize>,
}

impl<V> Model for NameTable<V> {
    ghost use Rattle.std.specs.Prelude.{List, ℕ};
    ghost use Rattle.mltl_base.specs.Entries.{AreNumbered, entries_from};

    ghost Value = { List (List ℕ × V) };

    ghost view = { λ table. entries_from 0 table.numbers.entries table.values.items };

    ghost invariant = { λ table. AreNumbered table.numbers.entries table.values.items };
}

impl<V> NameTable<V> {
    /// Creates a table without names. Does not allocate.
    pub fn new(alloc: Global) -> Self
        ensures { result ≡ [] }
    {
        NameTable {
            values: Vec::new(alloc),
            numbers: BTreeMap::new(alloc),
        }
    }

    /// Returns the number of names.
    pub fn len(&self) -> usize
        ensures { result ≡ length self.now }
    {
        self.values.len()
    }

    /// Returns true if the table has the name.
    pub fn contains(&self, name: &Name) -> bool
        ensures { result ≡ is_named name.now self.now }
    {
        self.numbers.contains_key(name.bytes())
    }
}

impl<V: Copy> NameTable<V> {
    /// Returns the value of a name, or `None` if the table lacks the name.
    pub fn find(&self, name: &Name) -> Option<V>
        ensures { result ≡ entry_of name.now self.now }
    {
        match self.numbers.get(name.bytes()) {
            Some(number) => Some(self.values[*number]),
            None => None,
        }
    }

    /// Returns the value of the name that was added with this number, counted from 0.
    pub fn value_at(&self, number: usize) -> V
        requires { number < length self.now }
        ensures { option_map (λ e. e.1) (slice_get self.now number) ≡ Some result }
    {
        self.values[number]
    }
}

impl<V: Drop> NameTable<V> {
    /// Adds a name, which the table must lack, after the others.
    pub fn add(&mut self, alloc: Global, name: &Name, value: V) -> Result<(), AllocError>
        requires { entry_of name.now self.old ≡ None }
        ensures added { OnOk result (self.new ≡ self.old ++ (name.now, value) ∷ []) }
    {
        let key = Vec::from_slice(alloc, name.bytes())?;
        self.values.reserve(1)?;
        self.numbers.insert(key, self.values.len())?;
        self.values.push(value)?;
        Ok(())
    }
}
