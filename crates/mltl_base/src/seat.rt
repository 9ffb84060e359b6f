//! Parts of a slab that many owners share.

/// The start and the length of a part of a slab. Each queue of an engine has its own part.
#[derive(Clone, Copy)]
pub struct Seat {
    pub start: usize,
    pub size: usize,
}
