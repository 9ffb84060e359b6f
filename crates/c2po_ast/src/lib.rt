//! The trees of a specification: items, types and expressions, the parts that expressions are made
//! of, and copies.
//!
//! Contracts identify a tree by its shape, which this crate's `specs/` define: two trees of one
//! shape have the same nodes with the same lines. `copy_tree` makes a second tree of the same
//! shape. `c2po_parse` reads tokens into these trees; code that needs only the trees uses this
//! crate alone.
//!
//! ```text
//! let expr = node::leaf_of(1, operator::Atom::Truth(true)); // the tree of `true` in line 1
//! ```
#![tactic(auto)]

mod copy;
pub mod item;
pub mod laws;
pub mod node;
pub mod node_list;
pub mod nodes;
pub mod operator;
pub mod tree;

pub use copy::{copy_tree, copy_type, field_names};
pub use item::{Body, FieldDecl, Item, SpecTree, TypeTree};
pub use node_list::NodeList;
pub use nodes::{Expanded, Plain, PlainOut};
pub use tree::{Expr, Node};
