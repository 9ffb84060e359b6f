//! The queue of a future-time operator: a ring of merged runs of verdicts, over slots that the
//! caller lends. The crate also has the parts that both engines use: the index of a member of a
//! ring, slices of a slab, and the counter of steps.
//!
//! The form is that of the shared connection queues of R2U2 (Kempa, Zhang, Jones, Zambreno and
//! Rozier, "Embedding Online Runtime Verification for Fault Disambiguation on Robonaut2", 2020).
#![tactic(auto)]

pub mod laws;
mod runs;

pub use runs::{Ring, Seen, Slot, ring_index};
