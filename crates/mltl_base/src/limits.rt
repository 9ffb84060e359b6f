//! Limits of the compiler and the monitor.

/// The most bytes of a specification.
pub const MAX_SPEC_BYTES: usize = 1_048_576;
/// The most bytes of a program file.
pub const MAX_PROGRAM_BYTES: usize = 16_777_216;
/// The most bytes of a line, with its newline.
pub const MAX_LINE_BYTES: usize = 65_536;
/// The most bytes of a word of a specification.
pub const MAX_WORD_BYTES: usize = 64;
/// The greatest number in a specification.
pub const MAX_NUMBER: u64 = 9_223_372_036_854_775_807;
/// The most tokens of one item of a specification.
pub const MAX_ITEM_TOKENS: usize = 1_024;
/// The greatest upper bound of an interval, in rows.
pub const MAX_BOUND: u32 = 1_048_576;
/// The most signals of a specification, and the greatest width of a program.
pub const MAX_SIGNALS: u32 = 65_536;
/// The greatest weight of an unfolded specification.
pub const MAX_WEIGHT: u32 = 65_536;
/// The most instructions of one part of a compiled program.
pub const MAX_INSTRUCTIONS: u32 = 65_536;
/// The greatest worst-case propagation delay, in rows.
pub const MAX_DELAY: u32 = 16_777_216;
/// The most queue slots and boxes of a program together.
pub const MAX_SLOTS: u32 = 16_777_216;
/// The greatest number of a counting quantifier.
pub const MAX_COUNT: u32 = 65_536;
/// The most bytes of a program shown as text.
pub const MAX_SHOWN_BYTES: usize = 1_048_576;
/// The longest mission time, in lines of a trace.
pub const MAX_MISSION: u64 = 1_099_511_627_776;
/// The default mission time of a stamped trace, in times.
pub const TIMED_MISSION: u64 = 16_777_216;
/// The end of the times that queues are asked for: twice the longest mission time.
pub const TIME_END: u64 = 2_199_023_255_552;
