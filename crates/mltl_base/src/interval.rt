//! Intervals of a temporal operator, and the engines that evaluate formulas.

/// The times from `lo` to `hi` rows away, both included: the `[lo,hi]` of a temporal operator.
#[derive(Clone, Copy, PartialEq, Eq, Hash)]
pub struct Interval {
    pub lo: u32,
    pub hi: u32,
}

/// The engine that evaluates a formula: future time or past time.
#[derive(Clone, Copy, PartialEq, Eq)]
pub enum Engine {
    Ft,
    Pt,
}

/// The part of a program that has an instruction: the Booleanizer, future time or past time.
#[derive(Clone, Copy)]
pub enum Part {
    Bz,
    Ft,
    Pt,
}
