//! Well-formed observer programs: the eight rules of the verifier, and programs that passed them.
//!
//! Stored sizes are never trusted: the verifier computes the sizes that the instructions need, and
//! compares.
#![tactic(auto)]

mod booleanizer;
mod checked;
mod checks;
mod columns;
mod fault;
mod laws;
mod layout;
mod reads;
mod rules;
mod signal_numbers;
mod signals;

pub use checked::{Checked, rebind, upgrade, verify};
pub use fault::{UpgradeFault, VerifyFault, name_of_part};
pub use laws::{
    upgraded_programs_tell_the_same, well_formed_programs_are_sound, well_formed_programs_run,
};
pub use layout::has_layout;
