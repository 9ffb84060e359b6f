//! Counting quantifiers as networks of shared gates.
//!
//! [`network`] returns the gates of "exactly, at least or at most `m` of `n` bodies are true". A
//! gate names earlier gates as its operands, and the last one is the result. `counting` in
//! `specs/Counting.antt` is the formula that it unfolds to, and [`formula_counts`] is the law that
//! this formula counts.
//!
//! ```
//! fn ands_of(alloc: Global) -> Result<usize, AllocError> {
//!     let gates = network(alloc, CountOp::AtLeast, 3, 2)?;
//!     Ok(gates.as_slice().iter().filter(|gate| matches!(gate, Gate::Both(..))).count())
//! }
//! ```
#![tactic(auto)]

pub mod gate;
pub mod laws;
pub mod networks;
mod table;

pub use gate::Gate;
pub use laws::formula_counts;
pub use networks::network;
