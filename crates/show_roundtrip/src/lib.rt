//! Laws of the round trip of programs that are shown as text: each law is the contract of a
//! function with an empty body.
#![tactic(auto)]

pub mod laws;
