//! The size of names, which program files count in 32 bits.

ghost use Rattle.std.specs.Prelude.{◌≡◌, ◌<◌, ◌↔◌, ◌^◌, IsTrue, length};
ghost use Rattle.std.specs.List.{flat_map};
ghost use Rattle.mltl_base.specs.Programs.{out_name as own_name};
ghost use Rattle.obs_binary.specs.Layout.{out_names, signal_name, signal_names};

use mltl_base::{Out, Program, StoredSignal};

/// Returns the number of bytes of all names of outputs.
fn output_bytes(outs: &[Out]) -> u64
    requires { length outs.now < 2 ^ 32 }
    ensures { result ≡ length (flat_map own_name outs.now) }
{
    let mut bytes = 0u64;
    for out in outs {
        bytes += out.name().bytes().len() as u64;
    }
    bytes
}

/// Returns the number of bytes of all names of signals.
fn signal_bytes(signals: &[StoredSignal]) -> u64
    requires { length signals.now < 2 ^ 32 }
    ensures { result ≡ length (flat_map signal_name signals.now) }
{
    let mut bytes = 0u64;
    for signal in signals {
        bytes += signal.name.bytes().len() as u64;
    }
    bytes
}

/// Returns `true` if a program file can count the bytes of the program's names.
pub fn are_countable(program: &Program) -> bool
    requires outs { length program.now.outs < 2 ^ 32 }
    requires signals { length program.now.signals < 2 ^ 32 }
    ensures { IsTrue result ↔ ((length (out_names program.now) < 2 ^ 32)
        × (length (signal_names program.now) < 2 ^ 32)) }
{
    let outs = output_bytes(program.outs.as_slice());
    let signals = signal_bytes(program.signals.as_slice());
    outs < 1 << 32 && signals < 1 << 32
}
