//! The lines of a program.

ghost use Rattle.std.specs.Prelude.{◌≡◌, ◌++◌, ℕ, OnOk, codes, slice_index};
ghost use Rattle.mltl_base.specs.declared.program.Program.{Program as Observer};
ghost use Rattle.obs_show.specs.Naming.{numbered_name};
ghost use Rattle.obs_show.specs.Showing.{NamesAll, reference_at, written_form};
ghost use Rattle.obs_show.specs.Text.{bz_form, ft_form, interval_text, shown_label, label_text, pt_form, reference_in, reference_text, section_text, spaced};

use crate::instruction_names::Naming;
use crate::names::add_number;
use crate::operation::Instruction;
use crate::references::{add_defined_name, add_reference};
use crate::shown::Shown;
use itoa::Buffer;
use mltl_base::{BzOp, Engine, FtOp, Interval, Name, Out, Part, PtOp, StoredSignal};
use obs_verify::Checked;
use std::alloc::AllocError;

impl Shown for StoredSignal {
    ghost use Rattle.obs_show.specs.Writing.{signal_bytes};

    ghost members = { λ program. program.signals };

    ghost bytes = { λ _. signal_bytes };

    fn add_line(
        &self,
        text: &mut Vec<u8>,
        _checked: &Checked,
        _naming: &Naming,
        _k: usize,
    ) -> Result<(), AllocError> {
        text.extend_from_slice(b"INPUT ")?;
        text.extend_from_slice(self.name.bytes())?;
        if self.truth {
            text.extend_from_slice(b": bool;\n")
        } else {
            text.extend_from_slice(b": int;\n")
        }
    }
}

/// Adds the text before the form of operation `k`.
fn begin_define(text: &mut Vec<u8>, naming: &Naming, k: usize) -> Result<(), AllocError>
    ensures { OnOk result (text.new.items ≡ text.old.items
        ++ (codes "DEFINE " ++ numbered_name (slice_index naming.now.numbers.items k)
        ++ codes " := ")) }
{
    text.extend_from_slice(b"DEFINE ")?;
    add_defined_name(text, naming, k)?;
    text.extend_from_slice(b" := ")
}

/// Adds a sign and the reference after it.
fn add_prefixed(
    text: &mut Vec<u8>,
    checked: &Checked,
    naming: &Naming,
    sign: &[u8],
    part: Part,
    i: u32,
) -> Result<(), AllocError>
    requires { NamesAll checked.now naming.now }
    ensures { OnOk result (text.new.items ≡ text.old.items
        ++ (sign.now ++ reference_text (reference_at checked.now part i))) }
{
    text.extend_from_slice(sign)?;
    add_reference(text, checked, naming, part, i)
}

/// Adds an operator between two references.
fn add_spaced(
    text: &mut Vec<u8>,
    checked: &Checked,
    naming: &Naming,
    part: Part,
    x: u32,
    operator: &[u8],
    y: u32,
) -> Result<(), AllocError>
    requires { NamesAll checked.now naming.now }
    ensures { OnOk result (text.new.items ≡ text.old.items
        ++ spaced (reference_at checked.now part x) operator.now
        (reference_at checked.now part y)) }
{
    add_reference(text, checked, naming, part, x)?;
    text.extend_from_slice(b" ")?;
    text.extend_from_slice(operator)?;
    text.extend_from_slice(b" ")?;
    add_reference(text, checked, naming, part, y)
}

/// Adds an interval.
fn add_interval(text: &mut Vec<u8>, window: Interval) -> Result<(), AllocError>
    ensures { OnOk result (text.new.items ≡ text.old.items ++ interval_text window) }
{
    text.extend_from_slice(b"[")?;
    add_number(text, window.lo)?;
    text.extend_from_slice(b",")?;
    add_number(text, window.hi)?;
    text.extend_from_slice(b"]")
}

/// Adds an operator with its interval between two references.
fn add_ranged(
    text: &mut Vec<u8>,
    checked: &Checked,
    naming: &Naming,
    part: Part,
    x: u32,
    letter: &[u8],
    window: Interval,
    y: u32,
) -> Result<(), AllocError>
    requires { NamesAll checked.now naming.now }
    ensures { OnOk result (text.new.items ≡ text.old.items
        ++ spaced (reference_at checked.now part x) (letter.now ++ interval_text window)
        (reference_at checked.now part y)) }
{
    add_reference(text, checked, naming, part, x)?;
    text.extend_from_slice(b" ")?;
    text.extend_from_slice(letter)?;
    add_interval(text, window)?;
    text.extend_from_slice(b" ")?;
    add_reference(text, checked, naming, part, y)
}

fn add_bz_form(
    text: &mut Vec<u8>,
    checked: &Checked,
    naming: &Naming,
    op: BzOp,
) -> Result<(), AllocError>
    requires { NamesAll checked.now naming.now }
    ensures { OnOk result (text.new.items ≡ text.old.items
        ++ written_form (bz_form checked.now op)) }
{
    match op {
        BzOp::Column(_) | BzOp::IsTrue(_) | BzOp::Const(_) => Ok(()),
        BzOp::Neg(a) => add_prefixed(text, checked, naming, b"-", Part::Bz, a),
        BzOp::Add(a, b) => add_spaced(text, checked, naming, Part::Bz, a, b"+", b),
        BzOp::Sub(a, b) => add_spaced(text, checked, naming, Part::Bz, a, b"-", b),
        BzOp::Mul(a, b) => add_spaced(text, checked, naming, Part::Bz, a, b"*", b),
        BzOp::Div(a, b) => add_spaced(text, checked, naming, Part::Bz, a, b"/", b),
        BzOp::Rem(a, b) => add_spaced(text, checked, naming, Part::Bz, a, b"%", b),
        BzOp::Eq(a, b) => add_spaced(text, checked, naming, Part::Bz, a, b"==", b),
        BzOp::Lt(a, b) => add_spaced(text, checked, naming, Part::Bz, a, b"<", b),
        BzOp::Le(a, b) => add_spaced(text, checked, naming, Part::Bz, a, b"<=", b),
    }
}

fn add_ft_form(
    text: &mut Vec<u8>,
    checked: &Checked,
    naming: &Naming,
    op: FtOp,
) -> Result<(), AllocError>
    requires { NamesAll checked.now naming.now }
    ensures { OnOk result (text.new.items ≡ text.old.items
        ++ written_form (ft_form checked.now op)) }
{
    match op {
        FtOp::True | FtOp::Load(_) => Ok(()),
        FtOp::Not(g) => add_prefixed(text, checked, naming, b"!", Part::Ft, g),
        FtOp::And(l, r) => add_spaced(text, checked, naming, Part::Ft, l, b"&&", r),
        FtOp::Until(l, r, window) => {
            add_ranged(text, checked, naming, Part::Ft, l, b"U", window, r)
        }
    }
}

fn add_pt_form(
    text: &mut Vec<u8>,
    checked: &Checked,
    naming: &Naming,
    op: PtOp,
) -> Result<(), AllocError>
    requires { NamesAll checked.now naming.now }
    ensures { OnOk result (text.new.items ≡ text.old.items
        ++ written_form (pt_form checked.now op)) }
{
    match op {
        PtOp::True | PtOp::Load(_) => Ok(()),
        PtOp::Not(g) => add_prefixed(text, checked, naming, b"!", Part::Pt, g),
        PtOp::And(l, r) => add_spaced(text, checked, naming, Part::Pt, l, b"&&", r),
        PtOp::Since(l, r, window) => {
            add_ranged(text, checked, naming, Part::Pt, l, b"S", window, r)
        }
    }
}

impl Shown for BzOp {
    ghost use Rattle.obs_show.specs.Writing.{bz_bytes};

    ghost members = { λ program. program.bz };

    ghost bytes = { bz_bytes };

    fn add_line(
        &self,
        text: &mut Vec<u8>,
        checked: &Checked,
        naming: &Naming,
        i: usize,
    ) -> Result<(), AllocError> {
        if !self.is_operation() {
            return Ok(());
        }
        begin_define(text, naming, naming.bz[i])?;
        add_bz_form(text, checked, naming, *self)?;
        text.extend_from_slice(b";\n")
    }
}

impl Shown for FtOp {
    ghost use Rattle.obs_show.specs.Writing.{ft_bytes};

    ghost members = { λ program. program.ft };

    ghost bytes = { ft_bytes };

    fn add_line(
        &self,
        text: &mut Vec<u8>,
        checked: &Checked,
        naming: &Naming,
        i: usize,
    ) -> Result<(), AllocError> {
        if !self.is_operation() {
            return Ok(());
        }
        begin_define(text, naming, naming.ft[i])?;
        add_ft_form(text, checked, naming, *self)?;
        text.extend_from_slice(b";\n")
    }
}

impl Shown for PtOp {
    ghost use Rattle.obs_show.specs.Writing.{pt_bytes};

    ghost members = { λ program. program.pt };

    ghost bytes = { pt_bytes };

    fn add_line(
        &self,
        text: &mut Vec<u8>,
        checked: &Checked,
        naming: &Naming,
        i: usize,
    ) -> Result<(), AllocError> {
        if !self.is_operation() {
            return Ok(());
        }
        begin_define(text, naming, naming.pt[i])?;
        add_pt_form(text, checked, naming, *self)?;
        text.extend_from_slice(b";\n")
    }
}

/// Adds the section of an output, and its label if its name isn't its number.
fn begin_output(text: &mut Vec<u8>, engine: Engine, k: usize, name: &Name) -> Result<(), AllocError>
    ensures { OnOk result (text.new.items ≡ text.old.items
        ++ (section_text engine ++ codes " " ++ label_text (shown_label k name.now))) }
{
    match engine {
        Engine::Ft => text.extend_from_slice(b"FTSPEC ")?,
        Engine::Pt => text.extend_from_slice(b"PTSPEC ")?,
    }
    let mut buffer = Buffer::new();
    if name.bytes() == buffer.format(k).as_bytes() {
        return Ok(());
    }
    text.extend_from_slice(name.bytes())?;
    text.extend_from_slice(b": ")
}

/// Returns the part of a program whose instructions an engine evaluates.
fn part_of(engine: Engine) -> Part
    ensures { (program : Observer) (i : ℕ)
        → reference_at program result i ≡ reference_in program engine i }
{
    match engine {
        Engine::Ft => Part::Ft,
        Engine::Pt => Part::Pt,
    }
}

impl Shown for Out {
    ghost use Rattle.obs_show.specs.Writing.{output_bytes};

    ghost members = { λ program. program.outs };

    ghost bytes = { output_bytes };

    fn add_line(
        &self,
        text: &mut Vec<u8>,
        checked: &Checked,
        naming: &Naming,
        k: usize,
    ) -> Result<(), AllocError> {
        match self {
            Out::Formula(engine, i, name) => {
                begin_output(text, *engine, k, name)?;
                add_reference(text, checked, naming, part_of(*engine), *i)?;
            }
            Out::Contract(engine, i, j, name) => {
                begin_output(text, *engine, k, name)?;
                add_reference(text, checked, naming, part_of(*engine), *i)?;
                text.extend_from_slice(b" => ")?;
                add_reference(text, checked, naming, part_of(*engine), *j)?;
            }
        }
        text.extend_from_slice(b";\n")
    }
}
