//! Codes that the calls return to C.

/// The call has done its work.
pub const DONE: u32 = 0;
/// The struct has no monitor.
pub const NOT_OPEN: u32 = 1;
/// The struct has a monitor already.
pub const ALREADY_OPEN: u32 = 2;
/// The bytes aren't a program, or the header doesn't name its signals. The fault says what is
/// wrong, and where.
pub const REFUSED: u32 = 3;
/// Out of memory.
pub const NO_MEMORY: u32 = 4;
/// Reports of the last row haven't been returned yet.
pub const REPORTS_LEFT: u32 = 5;
/// The numbers aren't a row of the program: their count isn't its width, or a number that it reads
/// isn't of its kind.
pub const NOT_A_ROW: u32 = 6;
/// The monitor has taken 2 ^ 40 rows.
pub const TOO_MANY_ROWS: u32 = 7;
/// No report is left.
pub const NO_REPORT: u32 = 8;
/// The program doesn't have this digest, so its bytes were changed.
pub const DAMAGED: u32 = 9;
/// The room is less than the reports of one row may need.
pub const NO_ROOM: u32 = 10;
