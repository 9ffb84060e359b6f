//! The loop over a trace: it takes lines one by one, and writes the reports of each before it reads
//! the next.
#![tactic(auto)]

pub mod laws;
mod reader;
mod report_lines;
mod status;
mod trace_loop;

pub use status::Watched;
pub use trace_feed::TraceWhy;
pub use trace_loop::{watch, watch_timed};
