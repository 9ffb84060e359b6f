//! An observer program for people: as the text of a specification, and as a table of its
//! instructions.
#![tactic(auto)]

mod fault;
mod instruction_names;
mod lines;
mod names;
mod operation;
mod program_text;
mod references;
mod shown;
mod table;
mod table_fields;
mod table_lines;
mod text;
mod weights;

pub use fault::ShowFault;
pub use program_text::show;
pub use table::instruction_table;
pub use weights::weight;
