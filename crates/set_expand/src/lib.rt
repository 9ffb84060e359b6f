//! Unfolding of a whole specification: its outputs as one list of nodes.
//!
//! `outputs_of` in the `specs/` of `c2po_types` defines the outputs of a specification: names have
//! the values of their definitions, fields and sets are taken apart, and quantifiers become
//! formulas over their bodies. [`expand`] returns nodes that unfold to it, operands before the
//! nodes that use them.
//!
//! ```text
//! let tokens = lex(alloc, b"INPUT p: bool; FTSPEC foreach(v: {p, !p})(v);")?;
//! let spec = check(alloc, &parse(alloc, &tokens)?)?;
//! let expanded = expand(alloc, &spec)?; // one output, named 0, whose node is p && !p
//! ```
#![tactic(auto)]

pub mod counting;
pub mod expanding;
pub mod formulas;
pub mod heads;
pub mod items;
pub mod names;
pub mod nodes;
pub mod plan;
pub mod scope;

pub use c2po_ast::{Expanded, Plain, PlainOut};
pub use expanding::expand;
