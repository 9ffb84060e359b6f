//! References to instructions: defined names, names of signals, numbers and true.

ghost use Rattle.std.specs.Prelude.{◌≡◌, ◌++◌, None, Some, OnOk, slice_get, slice_index, slice_index_or};
ghost use Rattle.obs_show.specs.Naming.{bz_called, bz_reference, ft_called, ft_reference, name_in, numbered_name, pt_called, pt_reference};
ghost use Rattle.obs_show.specs.Showing.{NamesAll, reference_at};
ghost use Rattle.obs_show.specs.Text.{reference_text};
ghost use Rattle.obs_verify.specs.SignalNumbers.{signal_in, signals_read};

use crate::instruction_names::Naming;
use crate::names::{add_name, add_number};
use mltl_base::{BzOp, FtOp, Part, PtOp};
use obs_verify::Checked;
use std::alloc::AllocError;

/// Adds the reference to instruction `i` of a part, or `true` if there is none. A well-formed
/// program never refers to a missing instruction.
pub(crate) fn add_reference(
    text: &mut Vec<u8>,
    checked: &Checked,
    naming: &Naming,
    part: Part,
    i: u32,
) -> Result<(), AllocError>
    requires { NamesAll checked.now naming.now }
    ensures { OnOk result (text.new.items ≡ text.old.items
        ++ reference_text (reference_at checked.now part i)) }
{
    match part {
        Part::Bz => add_bz(text, checked, naming, i as usize),
        Part::Ft => add_ft(text, checked, naming, i as usize),
        Part::Pt => add_pt(text, checked, naming, i as usize),
    }
}

fn add_bz(
    text: &mut Vec<u8>,
    checked: &Checked,
    naming: &Naming,
    i: usize,
) -> Result<(), AllocError>
    requires { NamesAll checked.now naming.now }
    ensures { OnOk result (text.new.items ≡ text.old.items
        ++ reference_text (bz_reference checked.now i)) }
{
    match checked.program().bz.as_slice().get(i) {
        Some(op) => add_bz_call(text, checked, naming, i, *op),
        None => text.extend_from_slice(b"true"),
    }
}

/// Adds the reference to an instruction of the Booleanizer.
#[tactic(auto, using(crate::proofs::NumberLaws::read_at))]
fn add_bz_call(
    text: &mut Vec<u8>,
    checked: &Checked,
    naming: &Naming,
    i: usize,
    op: BzOp,
) -> Result<(), AllocError>
    requires names { NamesAll checked.now naming.now }
    requires there { slice_get checked.now.bz i ≡ Some op }
    ensures { OnOk result (text.new.items ≡ text.old.items
        ++ reference_text (bz_called checked.now i (Some op))) }
{
    match op {
        BzOp::Column(c) | BzOp::IsTrue(c) => add_signal_name(text, checked, i, c),
        BzOp::Const(n) => add_number(text, n),
        BzOp::Neg(..)
        | BzOp::Add(..)
        | BzOp::Sub(..)
        | BzOp::Mul(..)
        | BzOp::Div(..)
        | BzOp::Rem(..)
        | BzOp::Eq(..)
        | BzOp::Lt(..)
        | BzOp::Le(..) => add_defined_name(text, naming, naming.bz[i]),
    }
}

fn add_ft(
    text: &mut Vec<u8>,
    checked: &Checked,
    naming: &Naming,
    i: usize,
) -> Result<(), AllocError>
    requires { NamesAll checked.now naming.now }
    ensures { OnOk result (text.new.items ≡ text.old.items
        ++ reference_text (ft_reference checked.now i)) }
{
    match checked.program().ft.as_slice().get(i) {
        Some(op) => add_ft_call(text, checked, naming, i, *op),
        None => text.extend_from_slice(b"true"),
    }
}

/// Adds the reference to an instruction of future time.
fn add_ft_call(
    text: &mut Vec<u8>,
    checked: &Checked,
    naming: &Naming,
    i: usize,
    op: FtOp,
) -> Result<(), AllocError>
    requires names { NamesAll checked.now naming.now }
    requires there { slice_get checked.now.ft i ≡ Some op }
    ensures { OnOk result (text.new.items ≡ text.old.items
        ++ reference_text (ft_called checked.now i (Some op))) }
{
    match op {
        FtOp::True => text.extend_from_slice(b"true"),
        FtOp::Load(a) => add_bz(text, checked, naming, a as usize),
        FtOp::Not(..) | FtOp::And(..) | FtOp::Until(..) => {
            add_defined_name(text, naming, naming.ft[i])
        }
    }
}

fn add_pt(
    text: &mut Vec<u8>,
    checked: &Checked,
    naming: &Naming,
    i: usize,
) -> Result<(), AllocError>
    requires { NamesAll checked.now naming.now }
    ensures { OnOk result (text.new.items ≡ text.old.items
        ++ reference_text (pt_reference checked.now i)) }
{
    match checked.program().pt.as_slice().get(i) {
        Some(op) => add_pt_call(text, checked, naming, i, *op),
        None => text.extend_from_slice(b"true"),
    }
}

/// Adds the reference to an instruction of past time.
fn add_pt_call(
    text: &mut Vec<u8>,
    checked: &Checked,
    naming: &Naming,
    i: usize,
    op: PtOp,
) -> Result<(), AllocError>
    requires names { NamesAll checked.now naming.now }
    requires there { slice_get checked.now.pt i ≡ Some op }
    ensures { OnOk result (text.new.items ≡ text.old.items
        ++ reference_text (pt_called checked.now i (Some op))) }
{
    match op {
        PtOp::True => text.extend_from_slice(b"true"),
        PtOp::Load(a) => add_bz(text, checked, naming, a as usize),
        PtOp::Not(..) | PtOp::And(..) | PtOp::Since(..) => {
            add_defined_name(text, naming, naming.pt[i])
        }
    }
}

/// Adds the name of the signal that instruction `i` reads in its column, or nothing if there is
/// none. A well-formed program reads no such column.
#[tactic(auto, using(crate::proofs::NumberLaws::name_of_number, obs_verify::proofs::ReaderLaws::number_inside))]
fn add_signal_name(
    text: &mut Vec<u8>,
    checked: &Checked,
    i: usize,
    c: u32,
) -> Result<(), AllocError>
    requires { slice_index_or (signals_read checked.now) i None ≡ signal_in checked.now.signals c }
    ensures { OnOk result (text.new.items ≡ text.old.items ++ name_in checked.now.signals c) }
{
    match checked.signal_number(i) {
        Some(k) => {
            let signal = &checked.program().signals.as_slice()[k as usize];
            text.extend_from_slice(signal.name.bytes())
        }
        None => Ok(()),
    }
}

/// Adds the defined name of operation `k`.
pub(crate) fn add_defined_name(
    text: &mut Vec<u8>,
    naming: &Naming,
    k: usize,
) -> Result<(), AllocError>
    ensures { OnOk result (text.new.items ≡ text.old.items
        ++ numbered_name (slice_index naming.now.numbers.items k)) }
{
    let number = match naming.numbers.get(k) {
        Some(number) => *number,
        None => 0,
    };
    add_name(text, number)
}
