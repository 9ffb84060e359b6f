//! Faults of openings as C reads them.

ghost use Rattle.std.specs.Prelude.{◌≡◌, ◌≤◌, ◌++◌, drop, length};
ghost use Rattle.r2u2_c.specs.Faults.{fault_kind, opening_fault, fault_part, fault_place, opening_kind, part_number, part_of, opening_place};

use crate::fault_text::text_of_fault;
use crate::opened::OpeningFault;
use mltl_base::Part;
use obs_binary::ProgramFault;

/// The fault of an opening as C reads it.
#[repr(C)]
#[derive(Clone, Copy)]
pub struct Fault {
    /// The kind, from 1 to 23; `embed/include/r2u2.h` names them.
    pub kind: u32,
    /// The part of the program: 1 bz, 2 ft, 3 pt; 0 if the fault is in no part.
    pub part: u32,
    /// The byte, instruction, output or signal with the fault, counted from 0.
    pub place: u64,
    /// The message, with zeros after it.
    pub text: [u8; 96],
}

impl Fault {
    /// Returns the fault of an opening as C reads it.
    pub(crate) fn of(why: &OpeningFault) -> Fault
        ensures { result ≡ opening_fault why.now }
    {
        let line = text_of_fault(why);
        let mut text = [0; 96];
        fill_front(&mut text, line.as_slice());
        Fault {
            kind: kind_of_fault(why),
            part: part_of_fault(why),
            place: place_of_fault(why),
            text,
        }
    }
}

/// Copies a piece to the start of a slice.
pub(crate) fn fill_front(into: &mut [u8], piece: &[u8])
    requires { length piece.now ≤ length into.old }
    ensures { into.new ≡ piece.now ++ drop (length piece.now) into.old }
{
    into[..piece.len()].copy_from_slice(piece);
}

fn kind_of_fault(why: &OpeningFault) -> u32
    ensures { result ≡ opening_kind why.now }
{
    match why {
        OpeningFault::Program(fault) => kind_of_program_fault(*fault),
        OpeningFault::NoSignals => 19,
        OpeningFault::LongHeader => 20,
        OpeningFault::NoHeader => 21,
        OpeningFault::Missing(_) => 22,
        OpeningFault::Twice(_) => 23,
        OpeningFault::Memory => 0,
    }
}

fn kind_of_program_fault(fault: ProgramFault) -> u32
    ensures { result ≡ fault_kind fault }
{
    match fault {
        ProgramFault::Short => 1,
        ProgramFault::Magic => 2,
        ProgramFault::Version => 3,
        ProgramFault::Reserved(_) => 4,
        ProgramFault::Opcode(_) => 5,
        ProgramFault::Trailing => 6,
        ProgramFault::NameBytes(_) => 7,
        ProgramFault::SignalBytes(_) => 8,
        ProgramFault::Width => 9,
        ProgramFault::Signal(_) => 10,
        ProgramFault::Operand(_, _) => 11,
        ProgramFault::Interval(_, _) => 12,
        ProgramFault::Divisor(_) => 13,
        ProgramFault::Range(_) => 14,
        ProgramFault::TooLate(_) => 15,
        ProgramFault::Output(_) => 16,
        ProgramFault::Size(_, _) => 17,
        ProgramFault::TooManySlots => 18,
    }
}

fn part_of_fault(why: &OpeningFault) -> u32
    ensures { result ≡ part_of why.now }
{
    match why {
        OpeningFault::Program(fault) => part_of_program_fault(*fault),
        _ => 0,
    }
}

fn part_of_program_fault(fault: ProgramFault) -> u32
    ensures { result ≡ fault_part fault }
{
    match fault {
        ProgramFault::Operand(part, _)
        | ProgramFault::Interval(part, _)
        | ProgramFault::Size(part, _) => number_of_part(part),
        _ => 0,
    }
}

fn number_of_part(part: Part) -> u32
    ensures { result ≡ part_number part }
{
    match part {
        Part::Bz => 1,
        Part::Ft => 2,
        Part::Pt => 3,
    }
}

fn place_of_fault(why: &OpeningFault) -> u64
    ensures { result ≡ opening_place why.now }
{
    match why {
        OpeningFault::Program(fault) => place_of_program_fault(*fault),
        _ => 0,
    }
}

fn place_of_program_fault(fault: ProgramFault) -> u64
    ensures { result ≡ fault_place fault }
{
    match fault {
        ProgramFault::Reserved(at) | ProgramFault::Opcode(at) => at,
        ProgramFault::NameBytes(k)
        | ProgramFault::SignalBytes(k)
        | ProgramFault::Signal(k)
        | ProgramFault::Output(k) => u64::from(k),
        ProgramFault::Operand(_, i)
        | ProgramFault::Interval(_, i)
        | ProgramFault::Divisor(i)
        | ProgramFault::Range(i)
        | ProgramFault::TooLate(i)
        | ProgramFault::Size(_, i) => u64::from(i),
        _ => 0,
    }
}
