//! The checker of the compiler: names, kinds, weights, ranges and tenses of a specification.
//!
//! A value is an integer, a Boolean, a struct or a set. The definitions in this crate's `specs/`
//! give each expression its kind, or its first fault of names and kinds, and each item its
//! declarations. A name is visible from the item after its declaration on.
//!
//! The first fault of a specification is defined in `specs/FirstFault.antt`. Items are taken in the
//! order of the text. In an item names and kinds come first, operands before operators and from
//! left to right; then the weight of the unfolded values, divisors and ranges, and tenses. `check`
//! returns the first fault, or the tree unchanged if it has none.
//!
//! `value_of` in `specs/Environment.antt` defines the value that an expression unfolds to, and
//! `weight` in `specs/Weights.antt` its weight. [`Unfolding`] holds the meanings of the names of a
//! specification, and finds the weight of a value, the first fault of its integers and its tenses,
//! without its nodes. Parts that aren't picked aren't visited. A definition is stored as its
//! summary, part by part, so each use costs one look-up. The body of a quantifier is summarized
//! once for successive members that are stored as the same value, and otherwise for each member.
//!
//! ```text
//! let tree = parse(alloc, &lex(alloc, b"INPUT p: bool; FTSPEC f: F[0,3] p;")?)?;
//! let spec = check(alloc, &tree)?; // spec.signals() has the truth p
//! ```
#![tactic(auto)]

pub mod counting;
pub mod declarations;
pub mod expression;
pub mod fact;
pub mod fault;
pub mod fields;
pub mod heads;
pub mod items;
pub mod kind;
pub mod laws;
pub mod meanings;
pub mod names;
pub mod operand;
pub mod operators;
pub mod progress;
pub mod room;
pub mod scope;
pub mod spec_check;
pub mod steps;
pub mod storing;
pub mod summary;
pub mod summing;
pub mod typed;
pub mod unfold_fault;
pub mod unfold_laws;
pub mod unfolding;
pub mod values;
pub mod variables;

pub use declarations::Declarations;
pub use expression::kind_of;
pub use fact::{Tenses, first_fault};
pub use fault::TypeFault;
pub use items::{check_contract, check_define, check_formula, declare_label};
pub use kind::{Base, Kind, Meaning};
pub use mltl_base::{NameTable, Signal};
pub use scope::Scope;
pub use spec_check::{check, check_owned};
pub use typed::TypedSpec;
pub use unfold_fault::UnfoldFault;
pub use unfolding::{Unfolding, Weighed};
