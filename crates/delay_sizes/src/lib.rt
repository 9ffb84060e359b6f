//! The sizes of observer programs: the delays of future-time instructions, the verdicts that their
//! queues hold, and the stretches of times that past-time instructions keep.
//!
//! Propagation delays and the lengths of shared queues follow Kempa and others (2020), where an
//! instruction also counts among its own siblings, which makes room for a burst that one row
//! releases.
#![tactic(auto)]

pub mod boxes;
pub mod delay_lists;
pub mod laws;
pub mod propagation;
pub mod queues;

pub use boxes::{box_count, box_counts, few_boxes};
pub use delay_lists::Delays;
pub use laws::delays_of_formulas;
pub use propagation::{DelayFault, delays};
pub use queues::{SizeFault, queue_lengths, queue_sizes, slot_count, total};
