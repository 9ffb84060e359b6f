//! The types, the limits and the definitions of meaning that all crates of the product share.
//!
//! A requirement is a formula of Mission-time Linear Temporal Logic. The future operators mean what
//! they mean in Li, Vardi and Rozier (2019); propagation delays follow Kempa and others (2020). The
//! definitions are in this crate's `specs/`, and contracts of all crates cite them.
#![tactic(auto)]

pub mod blanks;
mod fixed;
pub mod interval;
pub mod laws;
pub mod limits;
pub mod list;
pub mod name;
pub mod operators;
pub mod program;
pub mod range;
pub mod report;
mod seat;
pub mod signal;
pub mod steps;
mod table;
pub mod text;

pub use fixed::Fixed;
pub use interval::{Engine, Interval, Part};
pub use list::List;
pub use name::Name;
pub use operators::{ArithOp, BetweenOp, BzOp, CompareOp, CountOp, FtOp, LogicOp, PtOp, WindowOp};
pub use program::{Columns, Graph, Out, Program, Sizes, StoredSignal};
pub use range::{NoRange, Range};
pub use report::{Report, Style, Word};
pub use seat::Seat;
pub use signal::Signal;
pub use table::NameTable;
