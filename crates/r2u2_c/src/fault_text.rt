//! Messages for the faults of openings.

ghost use Rattle.std.specs.Prelude.{◌≡◌};
ghost use Rattle.r2u2_c.specs.Faults.{opening_text};

use crate::opened::OpeningFault;
use arrayvec::ArrayVec;
use mltl_base::text::add;

/// Returns the message of a fault, which has at most 77 bytes.
pub(crate) fn text_of_fault(why: &OpeningFault) -> ArrayVec<u8, 95>
    ensures { result.items ≡ opening_text why.now }
{
    let mut text = ArrayVec::new();
    match why {
        OpeningFault::Program(fault) => add(&mut text, &fault.text()),
        OpeningFault::NoSignals => add(&mut text, b"no signals"),
        OpeningFault::LongHeader => add(&mut text, b"line too long"),
        OpeningFault::NoHeader => add(&mut text, b"no header"),
        OpeningFault::Missing(name) => {
            add(&mut text, b"name ");
            add(&mut text, name.bytes());
            add(&mut text, b" missing");
        }
        OpeningFault::Twice(name) => {
            add(&mut text, b"name ");
            add(&mut text, name.bytes());
            add(&mut text, b" twice");
        }
        OpeningFault::Memory => add(&mut text, b"out of memory"),
    }
    text
}
