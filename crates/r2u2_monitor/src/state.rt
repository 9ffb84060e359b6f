//! The state of a monitor, for contracts.

use crate::running::Running;
use mltl_base::Fixed;

/// The engines, the row that was taken last, and a row that was read and isn't taken yet. No code
/// makes a state: contracts see a monitor as one.
#[derive(Drop)]
pub struct State {
    pub running: Running,
    pub last: Fixed<i64>,
    pub read: Fixed<i64>,
}
