//! Faults of a header.

ghost use Rattle.std.specs.Prelude.{◌≡◌, IfOk};

use mltl_base::Name;
use std::alloc::AllocError;
use std::error::Error;
use std::{fmt, str};

/// The first fault of a header.
#[derive(Drop)]
pub enum HeaderFault {
    /// The line doesn't begin with `#`.
    NoHeader,
    /// This signal is missing from the header.
    Missing(Name),
    /// This signal occurs more than once in the header.
    Twice(Name),
    /// Out of memory.
    Memory,
}

/// Prints the fault. A name that isn't UTF-8 is an error.
impl fmt::Display for HeaderFault {
    ghost use Rattle.std.specs.Prelude.{Some};
    ghost use Rattle.trace_columns.specs.HeaderTexts.{header_fault_text};

    ghost output = { λ fault. Some (header_fault_text fault) };

    fn fmt<W: fmt::Write>(&self, f: &mut fmt::Formatter<W>) -> fmt::Result {
        match self {
            HeaderFault::NoHeader => write!(f, "no header"),
            HeaderFault::Missing(name) => {
                let name = text_of(name)?;
                write!(f, "name {name} missing")
            }
            HeaderFault::Twice(name) => {
                let name = text_of(name)?;
                write!(f, "name {name} twice")
            }
            HeaderFault::Memory => write!(f, "out of memory"),
        }
    }
}

/// Returns a name as text, if it is UTF-8. Names of signals are letters, digits and `_`.
fn text_of(name: &Name) -> Result<&str, fmt::Error>
    ensures { IfOk result (λ text. text.now ≡ name.now) }
{
    str::from_utf8(name.bytes()).map_err(|_| fmt::Error)
}

impl fmt::Debug for HeaderFault {
    fn fmt<W: fmt::Write>(&self, f: &mut fmt::Formatter<W>) -> fmt::Result {
        fmt::Display::fmt(self, f)
    }
}

impl Error for HeaderFault {}

impl From<AllocError> for HeaderFault {
    ghost use Rattle.trace_columns.specs.declared.header_fault.HeaderFault.TheVariants.{Memory};

    ghost from_gives = { λ _ fault. fault ≡ Memory };

    fn from(_refused: AllocError) -> HeaderFault {
        HeaderFault::Memory
    }
}
