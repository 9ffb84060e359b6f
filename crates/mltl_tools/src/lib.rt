//! The public calls of the product under one name.
//!
//! [`c2po_main`] is the top call of the compiler, and [`r2u2_main`] the top call of the monitor.
//! The law [`compiled_and_watched`] joins the output of the compiler with the run of the monitor.
#![tactic(auto)]

mod laws;

pub use c2po_cli::c2po_main;
pub use c2po_compile::{CompileFault, HeaderWhy, Refusal, back, back_simple, compile, front};
pub use laws::{compiled_and_watched, one_by_one_is_not_longest};
pub use obs_binary::{ProgramFault, image};
pub use obs_show::instruction_table;
pub use r2u2_cli::{demo_row, r2u2_main};
pub use r2u2_monitor::Monitor;
pub use r2u2_watch::{TraceWhy, Watched, watch, watch_timed};
pub use tool_words::{Status, Tool, Words, message_of, words_of};
