//! The sizes of the elements of an engine's lists: compared with the types for x86-64, counted on
//! aarch64.

use crate::queue::Queue;
use scq_ring::Slot;
use std::mem::size_of;

/// The bytes of the queue of an instruction, without its slots.
pub const QUEUE_BYTES: usize = 72;
/// The bytes of a slot.
pub const SLOT_BYTES: usize = 16;

const _: () = prove!(size_of::<Queue>() == QUEUE_BYTES);

const _: () = prove!(size_of::<Slot>() == SLOT_BYTES);
