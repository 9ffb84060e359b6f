//! The runs of the monitor `r2u2`: its top call and the phases of it.
//!
//! [`r2u2_main`] reads the arguments, and the specification or the program that they name. Then
//! [`run_bytes`] runs over the trace; or the demo runs, which needs no file.
//!
//! [`run_bytes`]: crate::run_bytes
#![tactic(auto)]

mod demo;
mod first_line;
pub mod laws;
mod program_file;
mod r2u2_run;
mod text_laws;
mod trace_run;

pub use demo::row::demo_row;
pub use demo::run::{Demo, run_demo};
pub use demo::text::DEMO_TEXT;
pub use r2u2_run::r2u2_main;
pub use text_laws::images_tell_their_texts;
pub use trace_run::run_bytes;
