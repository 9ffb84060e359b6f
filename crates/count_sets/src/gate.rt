//! Gates of a network.

/// A gate over numbered bodies. Bodies and gates count from 0; operands are numbers of earlier
/// gates.
#[derive(Clone, Copy)]
pub enum Gate {
    Truth(bool),
    /// The truth of a body.
    Body(u32),
    Both(u32, u32),
    Either(u32, u32),
    Not(u32),
}
