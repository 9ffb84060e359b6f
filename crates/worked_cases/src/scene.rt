//! The files and the reads for the runs of a case.

use crate::files::Files;
use crate::piece::{Piece, hex_bytes, numbered};
use anyhow::{Context, Result, bail};
use std::alloc::{AllocError, Global};

/// The events and bytes for which a host has room.
#[derive(Clone, Copy)]
pub struct Room {
    pub events: usize,
    pub bytes: usize,
}

/// More room than a case needs whose name doesn't end in `(long)`.
const SHORT: Room = Room {
    events: 20_000,
    bytes: 200_000,
};

/// More room than the longest case needs.
const LONG: Room = Room {
    events: 2_000_000,
    bytes: 17_000_000,
};

impl Room {
    /// Returns the room of a case, by its name.
    pub fn of(case: &str) -> Room {
        if case.ends_with("(long)") {
            LONG
        } else {
            SHORT
        }
    }
}

/// Files, and the most bytes that a read returns in each of the runs.
#[derive(Drop)]
pub struct Scene {
    pub files: Files,
    pub blocks: Vec<usize>,
}

impl Scene {
    pub fn new(alloc: Global) -> Scene {
        Scene {
            files: Files::new(alloc),
            blocks: Vec::new(alloc),
        }
    }

    pub fn clear(&mut self) {
        self.files.clear();
        self.blocks.clear();
    }

    /// Sets the most bytes of a read to the numbers of a line.
    pub fn set_blocks(&mut self, numbers: &str) -> Result<()> {
        self.blocks.clear();
        for word in numbers.split(' ') {
            let block = word.parse::<usize>().context("the most bytes of a read")?;
            if block == 0 {
                bail!("a read gives at least one byte");
            }
            self.blocks.push(block)?;
        }
        Ok(())
    }
}

/// The scene of all cases, and the scene of the current case.
#[derive(Drop)]
pub struct Scenes {
    pub alloc: Global,
    pub common: Scene,
    pub own: Scene,
    pub in_case: bool,
    pub room: Room,
}

impl Scenes {
    pub fn new(alloc: Global) -> Scenes {
        Scenes {
            alloc,
            common: Scene::new(alloc),
            own: Scene::new(alloc),
            in_case: false,
            room: SHORT,
        }
    }

    /// Returns the scene to which a line adds: the case's own within a case, and else the scene of
    /// all cases.
    pub fn current(&mut self) -> &mut Scene {
        if self.in_case {
            &mut self.own
        } else {
            &mut self.common
        }
    }

    /// Returns the most bytes of a read, for each time that a run is made.
    pub fn blocks(&self) -> Result<Vec<usize>, AllocError> {
        if self.own.blocks.is_empty() {
            self.common.blocks.clone()
        } else {
            self.own.blocks.clone()
        }
    }

    /// Returns the bytes of the file of this name.
    pub fn find(&self, name: &str) -> Result<&[u8]> {
        match self.own.files.find(name) {
            Some(bytes) => Ok(bytes),
            None => self.common.files.find(name).context("no such file"),
        }
    }

    /// Returns the bytes of a piece.
    pub fn bytes_of(&self, piece: Piece<'_>) -> Result<Vec<u8>> {
        match piece {
            Piece::Line(text) => {
                let mut bytes = Vec::from_slice(self.alloc, text.as_bytes())?;
                bytes.push(b'\n')?;
                Ok(bytes)
            }
            Piece::Text(text) => Ok(Vec::from_slice(self.alloc, text.as_bytes())?),
            Piece::Hex(digits) => hex_bytes(self.alloc, digits),
            Piece::Copy(name) => Ok(Vec::from_slice(self.alloc, self.find(name)?)?),
        }
    }

    /// Appends a piece.
    pub fn add(&mut self, piece: Piece<'_>) -> Result<()> {
        let bytes = self.bytes_of(piece)?;
        self.current().files.add(&bytes)
    }

    /// Appends a piece `times` times, each time with the next number.
    pub fn repeat(&mut self, times: u32, piece: Piece<'_>) -> Result<()> {
        if piece.has_numbers() {
            return self.repeat_numbered(times, piece);
        }
        let bytes = self.bytes_of(piece)?;
        for _ in 0..times {
            self.current().files.add(&bytes)?;
        }
        Ok(())
    }

    fn repeat_numbered(&mut self, times: u32, piece: Piece<'_>) -> Result<()> {
        for number in 0..times {
            let bytes = numbered(self.alloc, &self.bytes_of(piece)?, number)?;
            self.current().files.add(&bytes)?;
        }
        Ok(())
    }
}
