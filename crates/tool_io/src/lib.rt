//! The bytes that a program reads and writes: the host between it and its files, and calls that
//! need only a host, such as writing a whole piece, reading a whole place and cutting a stream into
//! lines.
#![tactic(auto)]

mod counts;
mod host;
mod line_cut;
mod mem_files;
mod mem_host;
mod real_host;
mod tape;
mod whole;

pub use host::{Attached, Got, Host, Place, Put};
pub use line_cut::{Line, LineCut};
pub use mem_host::MemHost;
pub use real_host::RealHost;
pub use whole::{WholeFault, put_all, read_whole};
