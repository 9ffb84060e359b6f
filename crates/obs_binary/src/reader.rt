//! Reads programs from their bytes.

ghost use Rattle.std.specs.Prelude.{◌≡◌, ◌≤◌, length, map, IfOk, Ok};
ghost use Rattle.obs_binary.specs.Layout.{IsEncodable, spelling, body_len};
ghost use Rattle.obs_binary.specs.Reading.{GivesReading, past_header, program_at};
ghost use Rattle.mltl_base.specs.declared.program.Program.{Program};

use crate::entry::entries;
use crate::fault::ReadFault;
use crate::head::{OutHead, SignalHead};
use crate::header::Header;
use crate::names::named;
use mltl_base::{BzOp, FtOp, List, Program, PtOp, Sizes};
use std::alloc::{AllocError, Global};

/// Splits the instructions of an engine from their sizes.
fn split<O: Copy>(alloc: Global, sized: &[(O, u32)]) -> Result<(List<O>, List<u32>), AllocError>
    ensures ops { IfOk result (λ parts. parts.0 ≡ map (λ x. x.0) sized.now) }
    ensures sizes { IfOk result (λ parts. parts.1 ≡ map (λ x. x.1) sized.now) }
{
    let mut ops = List::room_for(alloc, sized.len())?;
    let mut sizes = List::room_for(alloc, sized.len())?;
    for &(op, size) in sized {
        ops.push_reserved(op);
        sizes.push_reserved(size);
    }
    Ok((List::of(ops), List::of(sizes)))
}

/// Reads the program that follows this header, in a file of `size` bytes.
#[tactic(auto, unfolding(crate::specs::Reading::past_header))]
fn read_body(
    alloc: Global,
    header: &Header,
    size: usize,
    bytes: &[u8],
) -> Result<Program, ReadFault>
    requires len { length bytes.now ≡ body_len header.now }
    requires within { length bytes.now ≤ size }
    ensures { GivesReading (λ program. program) result (past_header header.now size bytes.now) }
{
    let (bz, rest) = entries::<BzOp>(alloc, header.bz, size, bytes)?;
    let (sized_ft, rest) = entries::<(FtOp, u32)>(alloc, header.ft, size, rest)?;
    let (sized_pt, rest) = entries::<(PtOp, u32)>(alloc, header.pt, size, rest)?;
    let (out_heads, rest) = entries::<OutHead>(alloc, header.outs, size, rest)?;
    let (signal_heads, rest) = entries::<SignalHead>(alloc, header.signals, size, rest)?;
    let (out_names, signal_names) = rest.split_at(header.name_bytes as usize);
    let outs = named(alloc, out_heads.as_slice(), out_names)?;
    let signals = named(alloc, signal_heads.as_slice(), signal_names)?;
    let (ft, ft_sizes) = split(alloc, sized_ft.as_slice())?;
    let (pt, pt_sizes) = split(alloc, sized_pt.as_slice())?;
    Ok(Program {
        version: header.version,
        width: header.width,
        bz,
        ft,
        pt,
        outs,
        sizes: Sizes {
            ft: ft_sizes,
            pt: pt_sizes,
        },
        signals,
    })
}

/// Reads a program from all the bytes, or returns their first fault.
#[tactic(auto, unfolding(crate::specs::Reading::program_at))]
fn read_whole(alloc: Global, bytes: &[u8]) -> Result<Program, ReadFault>
    ensures { GivesReading (λ program. program) result (program_at bytes.now) }
{
    let header = Header::read(bytes)?;
    read_body(alloc, &header, bytes.len(), &bytes[header.len()..])
}

/// Returns the program that `write_program` writes as these bytes, or the first fault, in this
/// order:
///
/// 1. `Short` if there are fewer than 32 bytes, `Magic`, `Version`, `Reserved(6)` and
/// `Reserved(7)`; `Short` if the bytes are fewer than the header of version 2 or than the header
/// says, and `Trailing` if they are more.
/// 2. Each instruction and output in order: `Opcode`, or `Reserved` at its first byte that must be
/// 0 and isn't, or is an engine above 1. Each signal in order: `Reserved` in the same way, or if
/// its kind is above 1.
/// 3. `NameBytes` at the first output without a name, or if name bytes are left over; then
/// `SignalBytes`.
///
/// `Memory` comes only if an allocation fails. Time and memory are linear in the number of bytes:
/// the lengths are checked before anything is read.
pub fn read_program(alloc: Global, bytes: &[u8]) -> Result<Program, ReadFault>
    // The bytes are the spelling of the program that is read.
    ensures found { IfOk result (λ program. IsEncodable program × (bytes.now ≡ spelling program)) }
    // The spelling of a program is read as that program, unless memory runs out.
    ensures only { (program : Program) → IsEncodable program → bytes.now ≡ spelling program
        → GivesReading (λ read. read) result (Ok program) }
    // The result is the program or the first fault of the definitions.
    ensures exact { GivesReading (λ read. read) result (program_at bytes.now) }
{
    read_whole(alloc, bytes)
}

/// States that bytes spell at most one program. It is a law about the layout, and does nothing.
pub fn one_program()
    ensures { (p q : Program) → IsEncodable p → IsEncodable q → spelling p ≡ spelling q → p ≡ q }
{}
