//! The declarations of a specification.

use crate::{Kind, Meaning, NameTable, Signal};
use mltl_base::List;

/// The names that the items so far declare, the fields of structs, and the signals, in the order of
/// declaration.
#[derive(Drop)]
pub struct Declarations {
    /// Structs, signals and defined values, which share one space of names.
    pub names: NameTable<Meaning>,
    /// The fields of each struct.
    pub structs: List<NameTable<Kind>>,
    pub signals: List<Signal>,
}
