//! The files of a script.

use crate::piece::{Piece, hex_bytes, numbered};
use anyhow::{Context, Result, bail};
use std::alloc::Global;

/// A file of a script.
#[derive(Drop)]
pub struct NamedBytes {
    pub name: String,
    pub bytes: Vec<u8>,
}

/// Files by name. A script appends to the file that was begun last.
#[derive(Drop)]
pub struct Files {
    alloc: Global,
    entries: Vec<NamedBytes>,
}

impl Files {
    pub fn new(alloc: Global) -> Files {
        Files {
            alloc,
            entries: Vec::new(alloc),
        }
    }

    pub fn clear(&mut self) {
        self.entries.clear();
    }

    pub fn as_slice(&self) -> &[NamedBytes] {
        self.entries.as_slice()
    }

    /// Begins a file, in place of an older one of this name.
    pub fn begin(&mut self, name: &str) -> Result<()> {
        if name.is_empty() || name.contains(' ') {
            bail!("a file's name is one word");
        }
        self.entries.retain(|entry| entry.name.as_str() != name);
        let name = String::from_str(self.alloc, name)?;
        let bytes = Vec::new(self.alloc);
        self.entries.push(NamedBytes { name, bytes })?;
        Ok(())
    }

    /// Returns the bytes of the file that was begun last.
    fn last(&mut self) -> Result<&mut Vec<u8>> {
        match self.entries.last_mut() {
            Some(entry) => Ok(&mut entry.bytes),
            None => bail!("no file was begun"),
        }
    }

    /// Appends bytes to the file that was begun last.
    pub fn add(&mut self, bytes: &[u8]) -> Result<()> {
        self.last()?.extend_from_slice(bytes)?;
        Ok(())
    }

    /// Cuts the file to `length` bytes.
    pub fn cut(&mut self, length: usize) -> Result<()> {
        let bytes = self.last()?;
        if bytes.len() < length {
            bail!("the file has fewer bytes");
        }
        bytes.truncate(length);
        Ok(())
    }

    /// Sets the byte at a place to another value.
    pub fn set(&mut self, place: usize, byte: u8) -> Result<()> {
        let old = self.last()?.get_mut(place).context("no such place")?;
        *old = byte;
        Ok(())
    }

    /// Returns the bytes of the file of this name.
    pub fn find(&self, name: &str) -> Option<&[u8]> {
        for entry in &self.entries {
            if entry.name.as_str() == name {
                return Some(entry.bytes.as_slice());
            }
        }
        None
    }
}
