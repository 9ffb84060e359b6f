//! The arguments of the two programs and their requests; the endings of their runs, with their
//! messages; and reading a file whole.
//!
//! Help is requested by the only argument `--help` or `-h`. All other arguments are read by `clap`,
//! as one command with options, flags and positional arguments; the spelling of numbers and the
//! combination of arguments are checked after that.
#![tactic(auto)]

mod arguments;
mod c2po_words;
mod file_kind;
mod message;
mod numbers;
mod process_words;
mod r2u2_words;
mod status;
mod user_messages;
mod whole_file;
mod words;

pub use c2po_words::{C2poAsk, Compile, c2po_ask};
pub use file_kind::FileKind;
pub use message::{Tool, message_of};
pub use process_words::words_of;
pub use r2u2_words::{R2u2Ask, Run, r2u2_ask};
pub use status::Status;
pub use user_messages::{give_help, tell_user};
pub use whole_file::read_file;
pub use words::Words;
