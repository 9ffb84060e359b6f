//! The version of the library.

/// The sum of 10,000, 100 and 1 times the three numbers in the file `VERSION` at the top of the
/// repository.
pub const VERSION: u32 = 900;
