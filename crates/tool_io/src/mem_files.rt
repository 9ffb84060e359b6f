//! Files in memory, and the position of each place in them.

ghost use Rattle.std.specs.Prelude.{◌≡◌, ◌≢◌, ◌≤◌, ℕ, List, [], ◌∷◌, ◌++◌, IfOk, OnOk, OnErr, Some, None, length, drop, position, ◌-◌};
ghost use Rattle.std.specs.Option.{ForSome, option_copied, is_some};
ghost use Rattle.tool_io.specs.Host.{IsSource};
ghost use Rattle.tool_io.specs.Cursors.{cursor_at, with_cursor, no_cursors};
ghost use Rattle.tool_io.specs.MemFiles.{has_file_name, file_of, left_of, with_file_at, skipped, IsUnread, no_files};

use crate::host::Place;
use std::alloc::{AllocError, Global};
use std::marker::Model;

/// A file in memory.
#[derive(Drop)]
pub struct MemFile {
    name: String,
    bytes: Vec<u8>,
}

impl Model for MemFile {
    ghost use Rattle.tool_io.specs.MemFiles.{NamedBytes};

    ghost Value = { NamedBytes };

    ghost use Rattle.std.specs.Prelude.{string_bytes};

    ghost view = { λ file. record { name = string_bytes file.name; bytes = file.bytes.items } };
}

impl MemFile {
    /// Creates a file of this name with these bytes.
    pub fn make(alloc: Global, name: &str, bytes: &[u8]) -> Result<MemFile, AllocError>
        ensures { IfOk result (λ file. file ≡ record { name = name.now; bytes = bytes.now }) }
    {
        let name = String::from_str(alloc, name)?;
        let bytes = Vec::from_slice(alloc, bytes)?;
        Ok(MemFile { name, bytes })
    }

    /// Returns true if the file has this name.
    pub fn is_named(&self, name: &str) -> bool
        ensures { result ≡ has_file_name name.now self.now }
    {
        self.name.as_str() == name
    }

    /// Returns the number of bytes.
    pub fn len(&self) -> usize
        ensures { result ≡ length self.now.bytes }
    {
        self.bytes.len()
    }

    /// Returns the last `count` bytes.
    pub fn last(&self, count: usize) -> &[u8]
        requires { count ≤ length self.now.bytes }
        ensures { result.now ≡ drop (length self.now.bytes - count) self.now.bytes }
    {
        let bytes = self.bytes.as_slice();
        &bytes[bytes.len() - count..]
    }
}

/// The position of a place: the number of its file, and the number of bytes left.
#[derive(Clone, Copy)]
pub struct Cursor {
    pub file: usize,
    pub left: usize,
}

/// The position of each place that is read, if it is attached.
#[derive(Clone, Copy)]
pub struct Cursors {
    pub spec: Option<Cursor>,
    pub header: Option<Cursor>,
    pub program: Option<Cursor>,
    pub trace: Option<Cursor>,
}

impl Cursors {
    /// Returns positions with no place attached.
    pub fn new() -> Cursors
        ensures { result ≡ no_cursors }
    {
        Cursors {
            spec: None,
            header: None,
            program: None,
            trace: None,
        }
    }

    /// Returns the position of a place, or `None` for `Out` and `Err`.
    pub fn at(&self, place: Place) -> Option<Cursor>
        ensures { result ≡ cursor_at self.now place }
    {
        match place {
            Place::Spec => self.spec,
            Place::Header => self.header,
            Place::Program => self.program,
            Place::Trace => self.trace,
            Place::Out | Place::Err => None,
        }
    }

    /// Sets the position of a place that is read.
    pub fn set(&mut self, place: Place, cursor: Cursor)
        ensures { self.new ≡ with_cursor self.old place cursor }
    {
        match place {
            Place::Spec => self.spec = Some(cursor),
            Place::Header => self.header = Some(cursor),
            Place::Program => self.program = Some(cursor),
            Place::Trace => self.trace = Some(cursor),
            Place::Out | Place::Err => {}
        }
    }
}

/// Files by name, and the position of each place in them.
#[derive(Drop)]
pub struct MemFiles {
    files: Vec<MemFile>,
    cursors: Cursors,
}

impl Model for MemFiles {
    ghost use Rattle.tool_io.specs.MemFiles.{Stored};

    ghost Value = { Stored };

    ghost use Rattle.tool_io.specs.MemFilesInside.{stored_of, IsStored};

    ghost view = { stored_of };

    ghost invariant = { IsStored };
}

impl MemFiles {
    /// Creates a store without files, with no place attached.
    pub fn new(alloc: Global) -> MemFiles
        ensures { result ≡ no_files }
    {
        MemFiles {
            files: Vec::new(alloc),
            cursors: Cursors::new(),
        }
    }

    /// Stores these bytes as the file of this name, in place of an older file.
    pub fn put(&mut self, name: &str, bytes: &[u8]) -> Result<(), AllocError>
        requires { IsUnread self.old name.now }
        ensures holds { OnOk result (file_of self.new name.now ≡ Some bytes.now) }
        ensures others { (other : List ℕ) → other ≢ name.now →
            file_of self.new other ≡ file_of self.old other }
        ensures readings { self.new.readings ≡ self.old.readings }
        ensures err { OnErr result (self.new ≡ self.old) }
    {
        let file = MemFile::make(*self.files.allocator(), name, bytes)?;
        match position_of(&self.files, name) {
            Some(i) => self.files[i] = file,
            None => self.files.push(file)?,
        }
        Ok(())
    }

    /// Attaches a place to the start of the file of this name. Returns false if there is none.
    pub fn open(&mut self, place: Place, name: &str) -> bool
        requires { IsSource place }
        ensures found { result ≡ is_some (file_of self.old name.now) }
        ensures after { self.new ≡ with_file_at self.old place name.now }
    {
        let Some(file) = position_of(&self.files, name) else {
            return false;
        };
        let left = self.files[file].len();
        self.cursors.set(place, Cursor { file, left });
        true
    }

    /// Returns the bytes that a place has still to read, if it is attached.
    pub fn left(&self, place: Place) -> Option<&[u8]>
        ensures { option_copied result ≡ left_of self.now place }
    {
        let cursor = self.cursors.at(place)?;
        Some(self.files[cursor.file].last(cursor.left))
    }

    /// Skips `count` of the bytes that a place has still to read.
    pub fn skip(&mut self, place: Place, count: usize)
        requires { ForSome (left_of self.old place) (λ left. count ≤ length left) }
        ensures { self.new ≡ skipped self.old place count }
    {
        if let Some(cursor) = self.cursors.at(place) {
            let left = cursor.left - count;
            self.cursors.set(place, Cursor { left, ..cursor });
        }
    }
}

/// Returns the number of the first file of this name.
fn position_of(files: &[MemFile], name: &str) -> Option<usize>
    ensures { result ≡ position (has_file_name name.now) files.now }
{
    files.iter().position(|file| file.is_named(name))
}
