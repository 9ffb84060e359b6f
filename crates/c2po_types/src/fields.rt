//! The fields of a struct.

ghost use Rattle.std.specs.Prelude.{◌≡◌, true, Some, length, position, IfOk};
ghost use Rattle.std.specs.Str.{bytes_eq};

use crate::unfolding::next_place;
use mltl_base::{List, Name, NameTable};
use std::alloc::{AllocError, Global};
use std::marker::Model;

/// The names of a struct's fields in order. A field is found without a search.
#[derive(Drop)]
pub struct Fields {
    names: List<Name>,
    places: NameTable<u32>,
}

impl Model for Fields {
    ghost use Rattle.std.specs.Prelude.{List as Members, ℕ};
    ghost use Rattle.c2po_types.specs.Fields.{ArePlaces};

    ghost Value = { Members (Members ℕ) };

    ghost view = { λ fields. fields.names };

    ghost invariant = { λ fields. ArePlaces fields.places fields.names };
}

impl Fields {
    /// Makes the fields with these names. A name that occurs twice means the first field.
    pub fn of(alloc: Global, names: List<Name>) -> Result<Fields, AllocError>
        ensures { IfOk result (λ fields. fields ≡ names) }
    {
        let mut places = NameTable::new(alloc);
        for i in 0..names.len() {
            let name = &names.as_slice()[i];
            let place = next_place(i)?;
            if !places.contains(name) {
                places.add(alloc, name, place)?;
            }
        }
        Ok(Fields { names, places })
    }

    /// Returns the number of fields.
    pub fn len(&self) -> usize
        ensures { result ≡ length self.now }
    {
        self.names.len()
    }

    /// Returns `true` if the field is the first one.
    fn is_first(&self, field: &Name) -> bool
        ensures { result ≡ true → position (bytes_eq field.now) self.now ≡ Some 0 }
    {
        match self.names.as_slice().get(0) {
            Some(first) => field.bytes() == first.bytes(),
            None => false,
        }
    }

    /// Returns the place of a field.
    pub fn place(&self, field: &Name) -> Option<usize>
        ensures { result ≡ position (bytes_eq field.now) self.now }
    {
        if self.is_first(field) {
            return Some(0);
        }
        self.places.find(field).map(|place| place as usize)
    }
}
