//! Writes programs as bytes.

ghost use Rattle.std.specs.Prelude.{◌≡◌, ◌<◌, ◌^◌, ◌++◌, length, IfOk, OnOk};
ghost use Rattle.std.specs.List.{flat_map, zip, AllByRecursion};
ghost use Rattle.mltl_base.specs.Programs.{out_name};
ghost use Rattle.obs_binary.specs.Layout.{bz_entry, ft_entry, pt_entry, out_entry, signal_entry, out_head, signal_head, signal_name, out_names, signal_names, header_of, IsWritable, FitsBz, FitsFt, FitsPt, FitsOut, FitsSignal, IsEncodable, spelling};

use crate::head::{OutHead, SignalHead, out_bytes, signal_bytes};
use crate::header::Header;
use crate::instructions::{bz_bytes, ft_bytes, pt_bytes};
use mltl_base::{BzOp, FtOp, Name, Out, Program, PtOp, StoredSignal};
use std::alloc::{AllocError, Global};

#[tactic(auto, using(crate::proofs::Fitting::all_more))]
fn put_bz(out: &mut Vec<u8>, ops: &[BzOp]) -> Result<(), AllocError>
    ensures written { OnOk result (out.new.items ≡ out.old.items ++ flat_map bz_entry ops.now) }
    ensures fits { OnOk result (AllByRecursion FitsBz ops.now) }
{
    for op in ops {
        out.extend_from_slice(&bz_bytes(*op))?;
    }
    Ok(())
}

#[tactic(auto, using(crate::proofs::Fitting::all_more, crate::proofs::Fitting::all_below))]
fn put_ft(out: &mut Vec<u8>, ops: &[FtOp], sizes: &[u32]) -> Result<(), AllocError>
    requires { length sizes.now ≡ length ops.now }
    ensures written { OnOk result (out.new.items
        ≡ out.old.items ++ flat_map ft_entry (zip ops.now sizes.now)) }
    ensures fits { OnOk result (AllByRecursion FitsFt ops.now) }
    ensures sizes { OnOk result (AllByRecursion (λ n. n < 2 ^ 32) sizes.now) }
{
    for (i, op) in ops.iter().enumerate() {
        out.extend_from_slice(&ft_bytes(*op, sizes[i]))?;
    }
    Ok(())
}

#[tactic(auto, using(crate::proofs::Fitting::all_more, crate::proofs::Fitting::all_below))]
fn put_pt(out: &mut Vec<u8>, ops: &[PtOp], sizes: &[u32]) -> Result<(), AllocError>
    requires { length sizes.now ≡ length ops.now }
    ensures written { OnOk result (out.new.items
        ≡ out.old.items ++ flat_map pt_entry (zip ops.now sizes.now)) }
    ensures fits { OnOk result (AllByRecursion FitsPt ops.now) }
    ensures sizes { OnOk result (AllByRecursion (λ n. n < 2 ^ 32) sizes.now) }
{
    for (i, op) in ops.iter().enumerate() {
        out.extend_from_slice(&pt_bytes(*op, sizes[i]))?;
    }
    Ok(())
}

fn head_of(whole: &Out) -> OutHead
    ensures head { result ≡ out_head whole.now }
    ensures fits { FitsOut whole.now }
{
    match whole {
        Out::Formula(engine, left, name) => OutHead {
            engine: *engine,
            left: *left,
            right: None,
            name_len: name.bytes().len() as u32,
        },
        Out::Contract(engine, left, right, name) => OutHead {
            engine: *engine,
            left: *left,
            right: Some(*right),
            name_len: name.bytes().len() as u32,
        },
    }
}

#[tactic(auto, using(crate::proofs::Fitting::all_more))]
fn put_outs(out: &mut Vec<u8>, outs: &[Out]) -> Result<(), AllocError>
    ensures written { OnOk result (out.new.items
        ≡ out.old.items ++ flat_map (λ o. out_entry (out_head o)) outs.now) }
    ensures fits { OnOk result (AllByRecursion FitsOut outs.now) }
{
    for whole in outs {
        out.extend_from_slice(&out_bytes(head_of(whole)))?;
    }
    Ok(())
}

fn head_of_signal(signal: &StoredSignal) -> SignalHead
    ensures head { result ≡ signal_head signal.now }
    ensures fits { FitsSignal signal.now }
{
    let StoredSignal {
        name,
        truth,
        column,
    } = signal;
    SignalHead {
        column: *column,
        truth: *truth,
        name_len: name.bytes().len() as u8,
    }
}

#[tactic(auto, using(crate::proofs::Fitting::all_more))]
fn put_signals(out: &mut Vec<u8>, signals: &[StoredSignal]) -> Result<(), AllocError>
    ensures written { OnOk result (out.new.items
        ≡ out.old.items ++ flat_map (λ s. signal_entry (signal_head s)) signals.now) }
    ensures fits { OnOk result (AllByRecursion FitsSignal signals.now) }
{
    for signal in signals {
        out.extend_from_slice(&signal_bytes(head_of_signal(signal)))?;
    }
    Ok(())
}

/// Joins the names of the outputs.
fn joined_out_names(alloc: Global, outs: &[Out]) -> Result<Vec<u8>, AllocError>
    ensures { IfOk result (λ names. names.items ≡ flat_map out_name outs.now) }
{
    let mut names = Vec::new(alloc);
    for whole in outs {
        names.extend_from_slice(whole.name().bytes())?;
    }
    Ok(names)
}

/// Joins the names of the signals.
fn joined_signal_names(alloc: Global, signals: &[StoredSignal]) -> Result<Vec<u8>, AllocError>
    ensures { IfOk result (λ names. names.items ≡ flat_map signal_name signals.now) }
{
    let mut names = Vec::new(alloc);
    for signal in signals {
        names.extend_from_slice(signal.name.bytes())?;
    }
    Ok(names)
}

/// Returns the header of a program whose names have `name_bytes` and `signal_bytes` bytes.
fn header_for(program: &Program, name_bytes: u32, signal_bytes: u32) -> Header
    requires layout { IsWritable program.now }
    requires names { name_bytes ≡ length (out_names program.now) }
    requires signals { signal_bytes ≡ length (signal_names program.now) }
    ensures header { result ≡ header_of program.now }
    ensures width { program.now.width < 2 ^ 32 }
{
    let Program {
        version,
        width,
        bz,
        ft,
        pt,
        outs,
        sizes: _,
        signals,
    } = program;
    Header {
        version: *version,
        width: *width,
        bz: bz.len() as u32,
        ft: ft.len() as u32,
        pt: pt.len() as u32,
        outs: outs.len() as u32,
        name_bytes,
        signals: signals.len() as u32,
        signal_bytes,
    }
}

/// Returns the bytes of a program, in the layout of its version.
#[tactic(auto, unfolding(crate::specs::Layout::spelling))]
pub fn write_program(alloc: Global, program: &Program) -> Result<Vec<u8>, AllocError>
    requires { IsWritable program.now }
    ensures written { IfOk result (λ bytes. bytes.items ≡ spelling program.now) }
    // So reading the bytes gives this program.
    ensures fits { OnOk result (IsEncodable program.now) }
{
    let out_names = joined_out_names(alloc, program.outs.as_slice())?;
    let signal_names = joined_signal_names(alloc, program.signals.as_slice())?;
    let header = header_for(program, out_names.len() as u32, signal_names.len() as u32);
    let mut bytes = Vec::new(alloc);
    header.put(&mut bytes)?;
    put_bz(&mut bytes, program.bz.as_slice())?;
    put_ft(
        &mut bytes,
        program.ft.as_slice(),
        program.sizes.ft.as_slice(),
    )?;
    put_pt(
        &mut bytes,
        program.pt.as_slice(),
        program.sizes.pt.as_slice(),
    )?;
    put_outs(&mut bytes, program.outs.as_slice())?;
    put_signals(&mut bytes, program.signals.as_slice())?;
    bytes.extend_from_slice(&out_names)?;
    bytes.extend_from_slice(&signal_names)?;
    Ok(bytes)
}
