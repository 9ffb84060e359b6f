//! Names of a header's columns.

ghost use Rattle.std.specs.Prelude.{◌≡◌, ◌<◌, ◌≤◌, ◌^◌, ◌++◌, ◌∷◌, [], ℕ, List, Some, length, map, slice_get, OnOk, IfOk};
ghost use Rattle.csv.specs.Records.{fields_of};
ghost use Rattle.trace_columns.specs.Blanks.{trimmed as without_blanks};
ghost use Rattle.trace_columns.specs.Header.{column_of};
ghost use Rattle.trace_columns.specs.Places.{AreColumnPlaces};

use crate::blanks::trimmed;
use crate::header_fault::HeaderFault;
use csv::ByteRecord;
use mltl_base::{Name, NameTable};
use std::alloc::{AllocError, Global};

/// The columns of the names of a header.
#[derive(Drop)]
pub struct Places {
    /// The first column of each name.
    pub first: NameTable<u32>,
    /// The second column of each name that has one.
    pub again: NameTable<u32>,
}

/// Returns a field of a record, without the blanks around it.
fn name_at(fields: &ByteRecord, c: usize) -> &[u8]
    requires { c < length (fields_of fields.now) }
    ensures { slice_get (map without_blanks (fields_of fields.now)) c ≡ Some result.now }
{
    match fields.get(c) {
        Some(field) => trimmed(field),
        None => unreachable!(),
    }
}

impl Places {
    fn new(alloc: Global) -> Self
        ensures { AreColumnPlaces [] result }
    {
        Places {
            first: NameTable::new(alloc),
            again: NameTable::new(alloc),
        }
    }

    /// Adds the name of the next column, unless it isn't 1 to 64 bytes long: no signal has such a
    /// name.
    fn add(&mut self, alloc: Global, name: &[u8], column: u32) -> Result<(), AllocError>
        ensures { OnOk result ((names : List (List ℕ)) → length names ≡ column
            → AreColumnPlaces names self.old
            → AreColumnPlaces (names ++ name.now ∷ []) self.new) }
    {
        match Name::of(name) {
            Some(name) => self.note(alloc, &name, column),
            None => Ok(()),
        }
    }

    fn note(&mut self, alloc: Global, name: &Name, column: u32) -> Result<(), AllocError>
        requires some { 1 ≤ length name.now }
        requires limit { length name.now ≤ 64 }
        ensures { OnOk result ((names : List (List ℕ)) → length names ≡ column
            → AreColumnPlaces names self.old
            → AreColumnPlaces (names ++ name.now ∷ []) self.new) }
    {
        if !self.first.contains(name) {
            self.first.add(alloc, name, column)?;
        } else if !self.again.contains(name) {
            self.again.add(alloc, name, column)?;
        }
        Ok(())
    }

    /// Returns the columns of the names of a record, without the blanks around the names.
    pub fn of(alloc: Global, fields: &ByteRecord) -> Result<Places, AllocError>
        requires { length (fields_of fields.now) < 2 ^ 32 }
        ensures { IfOk result (AreColumnPlaces (map without_blanks (fields_of fields.now))) }
    {
        let mut places = Places::new(alloc);
        for c in 0..fields.len() {
            places.add(alloc, name_at(fields, c), c as u32)?;
        }
        Ok(places)
    }

    /// Returns the only column that has a name.
    pub fn find(&self, name: &Name) -> Result<u32, HeaderFault>
        ensures { (names : List (List ℕ)) → AreColumnPlaces names self.now
            → result ≡ column_of names name.now }
    {
        // The bounds of a name come from its type, and only a call brings them.
        let _ = name.bytes();
        if self.again.contains(name) {
            return Err(HeaderFault::Twice(name.copy()));
        }
        match self.first.find(name) {
            Some(column) => Ok(column),
            None => Err(HeaderFault::Missing(name.copy())),
        }
    }
}
