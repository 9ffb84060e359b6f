//! Faults of programs as text.

ghost use Rattle.std.specs.Prelude.{◌≡◌, ◌+◌, ◌≤◌, ◌++◌, length};
ghost use Rattle.arrayvec.specs.ArrayVec.{array_vec_len};
ghost use Rattle.obs_binary.specs.Texts.{fault_text};
ghost use Rattle.obs_verify.specs.FaultTexts.{with_number, parted};

use crate::ProgramFault;
use arrayvec::ArrayVec;
use mltl_base::Part;
use mltl_base::text::{add, add_number};
use obs_verify::name_of_part;
use std::{fmt, str};

/// The bytes of a text.
type Text = ArrayVec<u8, 40>;

impl ProgramFault {
    /// Returns the fault as text: its name, its part if it has one, and its number.
    pub fn text(self) -> ArrayVec<u8, 40>
        ensures { result.items ≡ fault_text self }
    {
        let mut text = ArrayVec::new();
        add_fault(&mut text, self);
        text
    }
}

impl fmt::Display for ProgramFault {
    ghost use Rattle.std.specs.Prelude.{Some};
    ghost use Rattle.obs_binary.specs.Texts.{fault_text};

    ghost output = { λ fault. Some (fault_text fault) };

    fn fmt<W: fmt::Write>(&self, f: &mut fmt::Formatter<W>) -> fmt::Result {
        let text = self.text();
        let text = str::from_utf8(&text).map_err(|_| fmt::Error)?;
        write!(f, "{text}")
    }
}

fn add_fault(text: &mut Text, fault: ProgramFault)
    requires { array_vec_len text.old ≡ 0 }
    ensures { text.new.items ≡ text.old.items ++ fault_text fault }
{
    match fault {
        ProgramFault::Short => add(text, b"short"),
        ProgramFault::Magic => add(text, b"magic"),
        ProgramFault::Version => add(text, b"version"),
        ProgramFault::Reserved(at) => add_numbered(text, b"reserved", at),
        ProgramFault::Opcode(at) => add_numbered(text, b"opcode", at),
        ProgramFault::Trailing => add(text, b"trailing"),
        ProgramFault::NameBytes(k) => add_numbered(text, b"namebytes", u64::from(k)),
        ProgramFault::SignalBytes(k) => add_numbered(text, b"signalbytes", u64::from(k)),
        ProgramFault::Width => add(text, b"width"),
        ProgramFault::Signal(k) => add_numbered(text, b"signal", u64::from(k)),
        ProgramFault::Operand(part, i) => add_parted(text, b"operand", part, i),
        ProgramFault::Interval(part, i) => add_parted(text, b"interval", part, i),
        ProgramFault::Divisor(i) => add_numbered(text, b"divisor", u64::from(i)),
        ProgramFault::Range(i) => add_numbered(text, b"range", u64::from(i)),
        ProgramFault::TooLate(i) => add_numbered(text, b"toolate", u64::from(i)),
        ProgramFault::Output(k) => add_numbered(text, b"output", u64::from(k)),
        ProgramFault::Size(part, i) => add_parted(text, b"size", part, i),
        ProgramFault::TooManySlots => add(text, b"toomanyslots"),
    }
}

fn add_numbered(text: &mut Text, name: &[u8], n: u64)
    requires { array_vec_len text.old + length name.now ≤ 11 }
    ensures { text.new.items ≡ text.old.items ++ with_number name.now n }
{
    add(text, name);
    add(text, b" ");
    add_number(text, n);
}

fn add_parted(text: &mut Text, name: &[u8], part: Part, n: u32)
    requires { array_vec_len text.old + length name.now ≤ 11 }
    ensures { text.new.items ≡ text.old.items ++ parted name.now part n }
{
    add(text, name);
    add(text, b" ");
    add(text, name_of_part(part).as_bytes());
    add(text, b" ");
    add_number(text, u64::from(n));
}
