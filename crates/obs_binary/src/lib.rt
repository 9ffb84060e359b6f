//! Observer programs as bytes: writing and reading both versions of the layout.
#![tactic(auto)]

mod entry;
mod fault;
mod fields;
mod file_fault;
mod files;
mod head;
mod header;
mod instructions;
mod laws;
mod names;
mod reader;
mod text;
mod writer;

pub use fault::ReadFault;
pub use fields::{i64_at, u32_at};
pub use file_fault::{FileFault, ProgramFault};
pub use files::{image, open};
pub use laws::{images_open, upgraded_names_fit};
pub use reader::{one_program, read_program};
pub use writer::write_program;
