//! Simplified formulas: the rules, their laws, and the simplified form of an unfolded
//! specification.
//!
//! `simp` in `specs/Simplify.antt` defines the simplified formula. [`simplify`] makes nodes that
//! unfold to it.
#![tactic(auto)]

mod laws;
mod numbers;
mod proxies;
mod rules;
mod simplifier;

pub use laws::{
    simplified_examples, simplified_formulas_keep_their_form, simplified_formulas_mean_the_same,
    simplified_formulas_settle_among_each_class, simplified_verdicts_are_settled,
};
pub use simplifier::simplify;
