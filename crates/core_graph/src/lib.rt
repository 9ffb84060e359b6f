//! Core graphs: the instructions of a specification that is unfolded, each distinct subformula once.
//!
//! Formulas are rewritten to true, atoms, not, and, until and since by the equations of `core` in `mltl_base`. All
//! expressions and core formulas are in one list, the forest, each once, in which vertices share their operands. The
//! lists of instructions are walks over it, in order of first completion.
#![tactic(auto)]

mod connectives;
mod forest;
mod graph;
mod keyed;
mod listing;
mod node_vertices;
mod ops;
mod vertex;
mod walk;

pub use graph::{GraphFault, to_core};
