//! The bytes that a monitor takes: the blocks of all lists that it holds, by the sizes of their
//! elements. The sizes are compared with the types for x86-64, and were the same when counted on
//! aarch64.

ghost use Rattle.std.specs.Prelude.{◌≡◌, ◌+◌, ◌*◌, ◌<◌, ◌^◌};
ghost use Rattle.mltl_base.specs.Room.{room};
ghost use Rattle.obs_verify.specs.Layout.{HasLayout};
ghost use Rattle.obs_verify.specs.Running.{RunsFuture, RunsPast};
ghost use Rattle.r2u2_monitor.specs.Bytes.{checked_bytes, monitor_bytes, running_bytes};

use crate::monitor::Monitor;
use delay_sizes::total;
use ft_engine::bytes::{QUEUE_BYTES, SLOT_BYTES};
use mltl_base::list::room_of;
use mltl_base::{BzOp, FtOp, Out, Program, PtOp, StoredSignal};
use obs_verify::Checked;
use pt_boxes::bytes::{NODE_BYTES, SPAN_BYTES};
use std::mem::size_of;
use trace_feed::Reading;

/// The bytes of an instruction of the Booleanizer.
pub const BZ_OP_BYTES: usize = 16;
/// The bytes of a future-time instruction.
pub const FT_OP_BYTES: usize = 20;
/// The bytes of a past-time instruction.
pub const PT_OP_BYTES: usize = 20;
/// The bytes of an output, its name among them.
pub const OUT_BYTES: usize = 80;
/// The bytes of a stored signal, its name among them.
pub const SIGNAL_BYTES: usize = 72;
/// The bytes of a size, and of a delay.
pub const SIZE_BYTES: usize = 4;
/// The bytes of the number of a signal that an instruction reads, if it reads one.
pub const READER_BYTES: usize = 8;
/// The bytes of a number of a row, and of a number of the Booleanizer.
pub const NUMBER_BYTES: usize = 8;
/// The bytes of a time.
pub const TIME_BYTES: usize = 8;
/// The bytes of the reading of a column.
pub const READING_BYTES: usize = 1;
/// The bytes of a monitor itself, wherever its caller puts it.
pub const MONITOR_BYTES: usize = 488;

const _: () = prove!(size_of::<BzOp>() == BZ_OP_BYTES);

const _: () = prove!(size_of::<FtOp>() == FT_OP_BYTES);

const _: () = prove!(size_of::<PtOp>() == PT_OP_BYTES);

const _: () = prove!(size_of::<Out>() == OUT_BYTES);

const _: () = prove!(size_of::<StoredSignal>() == SIGNAL_BYTES);

const _: () = prove!(size_of::<u32>() == SIZE_BYTES);

const _: () = prove!(size_of::<Option<u32>>() == READER_BYTES);

const _: () = prove!(size_of::<i64>() == NUMBER_BYTES);

const _: () = prove!(size_of::<u64>() == TIME_BYTES);

const _: () = prove!(size_of::<Reading>() == READING_BYTES);

const _: () = prove!(size_of::<Monitor>() == MONITOR_BYTES);

/// Returns the bytes of the block of a list that has room for `len` members.
fn list_bytes(size: usize, len: usize) -> u64
    requires small { size < 2 ^ 8 }
    requires few { len < 2 ^ 32 }
    ensures bytes { result ≡ size * room len }
    ensures few { result < 2 ^ 44 }
{
    (size * room_of(len)) as u64
}

/// Returns the bytes that a checked program takes.
fn checked_bytes(program: &Program) -> u64
    requires { HasLayout program.now }
    ensures bytes { result ≡ checked_bytes program.now }
    ensures few { result < 2 ^ 48 }
{
    let instructions = list_bytes(BZ_OP_BYTES, program.bz.len())
        + list_bytes(FT_OP_BYTES, program.ft.len())
        + list_bytes(PT_OP_BYTES, program.pt.len());
    let sizes = list_bytes(SIZE_BYTES, program.sizes.ft.len())
        + list_bytes(SIZE_BYTES, program.sizes.pt.len());
    let delays = 2 * list_bytes(SIZE_BYTES, program.ft.len());
    instructions
        + list_bytes(OUT_BYTES, program.outs.len())
        + sizes
        + list_bytes(SIGNAL_BYTES, program.signals.len())
        + delays
        + list_bytes(READER_BYTES, program.bz.len())
}

/// Returns the bytes of the readings of columns, and of a row.
fn column_bytes(width: u32) -> u64
    ensures bytes { result ≡ READING_BYTES * width + NUMBER_BYTES * width }
    ensures few { result < 2 ^ 37 }
{
    (READING_BYTES + NUMBER_BYTES) as u64 * u64::from(width)
}

/// Returns the bytes of the engines, the outputs and the columns.
fn running_bytes(program: &Program) -> u64
    requires layout { HasLayout program.now }
    requires future { RunsFuture program.now }
    requires past { RunsPast program.now }
    ensures bytes { result ≡ running_bytes program.now }
    ensures few { result < 2 ^ 48 }
{
    let slots = total(program.sizes.ft.as_slice());
    let boxes = total(program.sizes.pt.as_slice());
    (NUMBER_BYTES * program.bz.len()) as u64
        + (QUEUE_BYTES * program.ft.len()) as u64
        + SLOT_BYTES as u64 * slots
        + (NODE_BYTES * program.pt.len()) as u64
        + SPAN_BYTES as u64 * boxes
        + (TIME_BYTES * program.outs.len()) as u64
        + column_bytes(program.width)
}

/// Returns the bytes that a monitor of the program takes when it is loaded, in all its blocks
/// together, besides the `MONITOR_BYTES` of the monitor itself. It takes no memory.
#[tactic(auto, using(obs_verify::proofs::RunLaws::runs_future))]
pub fn monitor_bytes(checked: &Checked) -> u64
    ensures bytes { result ≡ monitor_bytes checked.now }
    ensures few { result < 2 ^ 49 }
{
    let program = checked.program();
    checked_bytes(program) + running_bytes(program)
}
