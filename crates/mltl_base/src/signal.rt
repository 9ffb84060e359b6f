//! Signals of a specification.

use crate::Name;

/// A signal: a Boolean or an integer.
#[derive(Drop)]
pub struct Signal {
    pub name: Name,
    pub truth: bool,
}
