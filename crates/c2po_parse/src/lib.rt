//! The parser of the compiler: from the tokens of a specification to the trees of its items.
//!
//! The grammar is in this crate's `specs/`. The trees are returned exactly if the grammar gives one
//! to each item; otherwise the fault of the first faulty item is returned with its line. The tree
//! of an expression is defined by splitting its tokens at the loosest operator outside brackets,
//! level by level: at the last one, or at the first for `->`. The code reads the tokens once, from
//! the left, and climbs the levels.
//!
//! ```text
//! let tokens = lex(alloc, b"INPUT p, q: bool; FTSPEC f: p -> F[0,3] q;")?;
//! let tree = parse(alloc, &tokens)?; // an Input of two names, and a Formula with the label f
//! ```
#![tactic(auto)]

mod expression;
pub mod fault;
mod form;
pub mod front;
pub mod laws;
mod node;
pub mod operator;
mod parser;
pub mod section;
pub mod tree_fault;

pub use c2po_ast::{
    Body, Expr, FieldDecl, Item, Node, SpecTree, TypeTree, copy_tree, copy_type, field_names, item,
    tree,
};
pub use expression::read_expression;
pub use fault::ParseFault;
pub use parser::parse;
pub use tree_fault::TreeFault;
