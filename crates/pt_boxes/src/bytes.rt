//! The sizes of the elements of an engine's lists: compared with the types for x86-64, counted on
//! aarch64.

use crate::boxes::Span;
use crate::rows::Node;
use std::mem::size_of;

/// The bytes of an instruction, without its boxes.
pub const NODE_BYTES: usize = 40;
/// The bytes of a box.
pub const SPAN_BYTES: usize = 16;

const _: () = prove!(size_of::<Node>() == NODE_BYTES);

const _: () = prove!(size_of::<Span>() == SPAN_BYTES);
