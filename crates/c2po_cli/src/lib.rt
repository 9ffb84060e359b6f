//! The runs of the compiler `c2po`: its top call and the phases of it.
//!
//! [`c2po_main`] reads the arguments and the specification or the program that they name, and the
//! header, if any. It writes the image of the specification, its instruction table, a program in
//! version 2, or the text of a program.
#![tactic(auto)]

mod c2po_run;
mod compiled;
mod header_file;
mod inputs;
mod make;
mod output;
mod upgrade;

pub use c2po_run::c2po_main;
