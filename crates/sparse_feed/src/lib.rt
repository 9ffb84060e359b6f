//! Stamps: a line of a stamped trace begins with `@`, the time from which its row holds, and a
//! comma.
#![tactic(auto)]

mod stamp;

pub use stamp::{Stamp, gap, stamp_of};
