//! Copies of the trees of a specification, and of names in them.
//!
//! A copy has the shape of its tree: the same items in the same order, with the same lines.

mod expression;
mod item;

pub use item::{copy_tree, copy_type, field_names};
