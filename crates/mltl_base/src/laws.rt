//! Laws that follow from the definitions of this crate: each is the contract of an empty function.

pub mod instructions;
pub mod known;
pub mod longest;
pub mod meaning;
pub mod ranges;
pub mod reported;
