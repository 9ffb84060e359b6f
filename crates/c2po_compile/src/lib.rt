//! The compiler: from the text of a specification to a checked program.
//!
//! [`front`] reads a text: its tokens, the trees of its items, and their check. [`back`] makes the
//! program of a checked specification, over the columns of its signals. [`compile`] does both, and
//! takes the columns from the header line of a trace. `compile_text` in this crate's `specs/`
//! defines the program of a text and a header line, or their refusal. [`back_simple`] makes the
//! program in simplified form, if that is smaller.
//!
//! ```text
//! let text = b"INPUT p, q: bool; FTSPEC f: p && F[0,2] q;";
//! let checked = compile(alloc, text, Some(b"# q,p"))?; // q in column 0, p in column 1
//! ```
#![tactic(auto)]

mod assembly;
mod build_fault;
mod compiler;
mod fault;
mod image_laws;
pub mod laws;
mod names;
mod program;
mod signals;
mod simple;
mod stored;
mod text;

pub use assembly::build;
pub use build_fault::BuildFault;
pub use compiler::{columns_of, compile};
pub use fault::{CompileFault, HeaderWhy, Refusal};
pub use image_laws::{images_are_well_formed, images_tell_their_outputs};
pub use program::back;
pub use simple::back_simple;
pub use text::front;
