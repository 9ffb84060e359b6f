//! The propagation delays of a program, as two lists.

use mltl_base::List;

/// The best-case and the worst-case delay of each future-time instruction, in rows: after n rows
/// its verdicts are known at some number of times from `n - worst` to `n - best`.
#[derive(Drop)]
pub struct Delays {
    pub best: List<u32>,
    pub worst: List<u32>,
}
